#![tactic(auto)]
// The packed plan (document 01, 'The plan, packed'): its header, an operation and a forgery as values, and all refusals.
pub mod forgeries;
pub mod form;
pub mod header;
pub mod operations;

// Why a call of the library is refused: the numbers 1 to 23 of documents 01 and 02, in order.
#[derive(Clone, Copy, Debug, PartialEq, Eq)]
pub enum Refusal {
    // There is no such form, or the plan is shorter than its form's header.
    TooShort,
    // A header field is outside its range.
    HeaderRange,
    // There are fewer servers than the faults ask for.
    TooFewServers,
    // The length is other than the header implies.
    Length,
    // A placement does not stand.
    Placement,
    // An operation does not stand.
    Operation,
    // A forgery does not stand.
    Forgery,
    // A delay or a final bit does not stand.
    Delay,
    // The buffer is too short for the answers.
    AnswersShort,
    // The workspace is too short.
    WorkspaceShort,
    // There is no such server or tick.
    OutOfRange,
    // The answers' length is not that of the plan's reads.
    WrongLength,
    // An answer is not to its read.
    WrongRead,
    // The buffer is shorter than the packed plan.
    BufferShort,
    // The page is too short for the sheet.
    PageShort,
    // A tick isn't below H, or a second stop lies before the first.
    StopRange,
    // The state's length is not that of a state.
    StateLength,
    // A field of the state is outside its range.
    StateRange,
    // A value is too wide for form one.
    ValueTooWide,
    // The buffer is shorter than the carried plan.
    CarriedShort,
    // A rights field does not stand.
    Rights,
    // A read without the right to it.
    NoRight,
    // The text is too short for the sentences.
    TextShort,
}
