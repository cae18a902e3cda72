#![tactic(auto)]
// The operations as they are exported to C: each calls the function of `capi` that has its name, and states its clauses again. Any form, any bytes, any lengths. A result of `codes::REFUSED` or more is a refusal, that and its number; it changes no lent byte.
ghost use Rattle.std.specs.Prelude.{◌≡◌};
ghost use Rattle.plan.specs.Check.{check_in};
ghost use Rattle.plan.specs.Limits.{most_bytes, most_reads};
ghost use Rattle.answers.specs.Workspace.{workspace_size};
ghost use Rattle.results.specs.Judge.{judge_in};
ghost use Rattle.codes.specs.Codes.{code_of, verdict_code, look_coded};
ghost use Rattle.capi_fields.specs.Fields.{answer_field, header_field};
ghost use Rattle.pack.specs.Numbered.{lists_from};
ghost use Rattle.plan.specs.Form.{form_one, form_two, width_of};
ghost use Rattle.carrying.specs.Carrying.{carry_of};
ghost use Rattle.sheet.specs.Sheet.{sheet_in};
ghost use Rattle.capi_forecast.specs.Figures.{forecast_coded};
ghost use Rattle.capi.specs.Exported.{play_exported, pack_exported, written_by, answer_bytes_in};

// The number of reads.
#[unsafe(no_mangle)]
pub extern "C" fn register_check(form: usize, plan: &[u8]) -> usize
    ensures { result ≡ code_of (check_in form plan.now) }
{
    capi::register_check(form, plan)
}

// The number of reads; an answer's bytes for each of them.
#[unsafe(no_mangle)]
pub extern "C" fn register_play(
    form: usize,
    plan: &[u8],
    answers: &mut [u8],
    workspace: &mut [u8],
) -> usize
    ensures { record { code = result; answers = answers.new; workspace = workspace.new } ≡ play_exported form plan.now answers.old workspace.old }
{
    capi::register_play(form, plan, answers, workspace)
}

// A server's condition and 4 for each pair that it keeps. As many whole pairs as fit stand at the start of `pairs`, four bytes each.
#[unsafe(no_mangle)]
pub extern "C" fn register_look(
    form: usize,
    plan: &[u8],
    workspace: &mut [u8],
    server: usize,
    tick: usize,
    pairs: &mut [u8],
) -> usize
    ensures { record { code = result; workspace = workspace.new; pairs = pairs.new } ≡ look_coded form plan.now workspace.old server tick pairs.old }
{
    capi::register_look(form, plan, workspace, server, tick, pairs)
}

// 1 for yes, 0 for no.
#[unsafe(no_mangle)]
pub extern "C" fn register_judge(form: usize, plan: &[u8], answers: &[u8]) -> usize
    ensures { result ≡ verdict_code (judge_in form plan.now answers.now) }
{
    capi::register_judge(form, plan, answers)
}

// The number of bytes of the sheet of the answers, at the start of `page`.
#[unsafe(no_mangle)]
pub extern "C" fn register_sheet(form: usize, plan: &[u8], answers: &[u8], page: &mut [u8]) -> usize
    ensures { record { code = result; out = page.new } ≡ written_by (sheet_in form plan.now answers.now page.old) }
{
    capi::register_sheet(form, plan, answers, page)
}

// How many numbers there are. As many of them as fit stand at the start of `numbers`: 0 bytes of answers, 1 movements, 2 WRITEs and 3 READs sent, 4 votes sent on
// receipt of a WRITE, 5 the most forged messages that arrive in one tick.
#[unsafe(no_mangle)]
pub extern "C" fn register_forecast(form: usize, plan: &[u8], numbers: &mut [u32]) -> usize
    ensures { record { code = result; numbers = numbers.new } ≡ forecast_coded form plan.now numbers.old }
{
    capi::register_forecast(form, plan, numbers)
}

// The number of bytes of the plan that is packed from the lists, at the start of `out`.
#[unsafe(no_mangle)]
pub extern "C" fn register_pack(
    form: usize,
    header: &[u32],
    placements: &[u32],
    operations: &[u32],
    forgeries: &[u32],
    delays: &[u32],
    out: &mut [u8],
) -> usize
    ensures { record { code = result; out = out.new } ≡ pack_exported form
        (lists_from header.now placements.now operations.now forgeries.now delays.now) out.old }
{
    capi::register_pack(form, header, placements, operations, forgeries, delays, out)
}

// The number of bytes of the plan of form one carried to form two, at the start of `out`.
#[unsafe(no_mangle)]
pub extern "C" fn register_carry(plan: &[u8], out: &mut [u8]) -> usize
    ensures { record { code = result; out = out.new } ≡ written_by (carry_of (width_of form_one) (width_of form_two) plan.now out.old) }
{
    capi::register_carry(plan, out)
}

// The same on the way back, from form two to form one.
#[unsafe(no_mangle)]
pub extern "C" fn register_carry_back(plan: &[u8], out: &mut [u8]) -> usize
    ensures { record { code = result; out = out.new } ≡ written_by (carry_of (width_of form_two) (width_of form_one) plan.now out.old) }
{
    capi::register_carry_back(plan, out)
}

// A field of answer i: 0 begin, 1 reader, 2 value, 3 number, 4 count. 0 where there is no such form, answer or field.
#[unsafe(no_mangle)]
pub extern "C" fn register_answer(form: usize, answers: &[u8], i: usize, field: usize) -> usize
    ensures { result ≡ answer_field form answers.now i field }
{
    capi::register_answer(form, answers, i, field)
}

// A field of a plan's header: 0 n, 1 f, 2 delta, 3 period, 4 readers, 5 ticks, 6 initial value, 7 operations, 8 forgeries. 0 where there is no such form,
// header or field.
#[unsafe(no_mangle)]
pub extern "C" fn register_header(form: usize, plan: &[u8], field: usize) -> usize
    ensures { result ≡ header_field form plan.now field }
{
    capi::register_header(form, plan, field)
}

// The bytes of the longest plan that Check accepts in a form.
#[unsafe(no_mangle)]
pub extern "C" fn register_most_bytes(form: usize) -> usize
    ensures { result ≡ most_bytes form }
{
    capi::register_most_bytes(form)
}

// The most reads of a plan that Check accepts.
#[unsafe(no_mangle)]
pub extern "C" fn register_most_reads() -> usize
    ensures { result ≡ most_reads }
{
    capi::register_most_reads()
}

// The bytes of an answer in a form; 0 where there is no such form.
#[unsafe(no_mangle)]
pub extern "C" fn register_answer_bytes(form: usize) -> usize
    ensures { result ≡ answer_bytes_in form }
{
    capi::register_answer_bytes(form)
}

// The bytes of workspace that Play and Look ask for.
#[unsafe(no_mangle)]
pub extern "C" fn register_workspace_bytes() -> usize
    ensures { result ≡ workspace_size }
{
    capi::register_workspace_bytes()
}
