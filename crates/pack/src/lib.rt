#![tactic(auto)]
// Pack: a plan from lists of numbers, one for each field in packed order, into a lent buffer.
ghost use Rattle.std.specs.Prelude.{◌≡◌, true, ◌&&◌, ◌*◌, ◌≤◌, length};
ghost use Rattle.bits.specs.{Field.Bytes, Layout.fits, Writing.Wrote};
ghost use Rattle.plan.specs.{Form.most_width, Widths.header_widths, Widths.placement_widths, Widths.operation_widths, Widths.forgery_widths, Widths.delay_widths, Header.header_of, Header.moves, Header.delay_count, Limits.implied_bytes, Check.placements_stand, Check.operations_stand, Check.forgeries_stand, Check.delays_stand, Buffer.into_buffer, Shape.shape, Shape.Ranged, Shape.Sized, Numbered.numbered};
ghost use Rattle.lists.specs.{Lists.Full, Lists.placements_widths, Lists.operations_widths, Lists.forgeries_widths, Lists.delays_widths, Lists.plan_bits};
ghost use Rattle.pack.specs.{Pack.lengths_implied, Pack.part_tests, Pack.pack_of, Pack.pack_in, Numbered.lists_from, Numbered.parts_of, Numbered.with_header, Numbered.Listed};

use plan::forgeries::Forged;
use plan::header::Shape;
use plan::operations::Operation;
use plan::{Refusal, form};

// The lists behind the header.
#[derive(Clone, Copy)]
struct Parts<'a> {
    placements: &'a [u32],
    operations: &'a [u32],
    forgeries: &'a [u32],
    delays: &'a [u32],
}

// Have the lists the lengths that the header implies.
#[tactic(auto, unfolding(crate::specs::Pack::lengths_implied))]
fn are_implied(h: Shape, parts: &Parts) -> bool
    requires { Ranged (shape h) }
    ensures { result ≡ lengths_implied h.width (shape h) (parts_of parts.now) }
{
    parts.placements.len() == h.moves()
        && parts.operations.len() == Operation::FIELDS * usize::from(h.operations)
        && parts.forgeries.len() == Forged::FIELDS * usize::from(h.forgeries)
        && parts.delays.len() == h.delay_count()
}

// The bits of all lists, from the first bit on.
#[tactic(auto, using(plan::proofs::Sizes::width_times, bits::proofs::Packing::fits_length), unfolding(records::specs::Records::no_wider))]
fn write(own: &mut [u8], h: Shape, header: &[u32], parts: &Parts)
    requires { (length own.old ≡ implied_bytes) × (h.width ≤ most_width) × Listed h.width (with_header header.now parts.now) (shape h) }
    ensures { Bytes own.new × Wrote own.old own.new 0 (plan_bits h.width (with_header header.now parts.now)) }
{
    let widths = Shape::header_widths(h.width);
    packing::put_fields(own, 0, &widths, header);
    packing::put_all(
        own,
        h.placement_at(0),
        &Shape::PLACEMENT_WIDTHS,
        parts.placements,
        h.moves(),
    );
    let widths = Operation::widths(h.width);
    packing::put_all(
        own,
        h.operations_at(),
        &widths,
        parts.operations,
        usize::from(h.operations),
    );
    let widths = Forged::widths(h.width);
    packing::put_all(
        own,
        h.forgeries_at(),
        &widths,
        parts.forgeries,
        usize::from(h.forgeries),
    );
    nibbles::put(own, h.delays_at(), parts.delays);
}

// Do the placements fit, and stand in the plan that they are packed to.
#[tactic(auto, unfolding(records::specs::Records::no_wider))]
fn placements_pass(plan: &[u8], h: Shape, placements: &[u32]) -> bool
    requires { Sized h.width plan.now (shape h) × (length placements.now ≡ length placement_widths * moves (shape h)) }
    ensures { result ≡ fits (placements_widths (shape h)) placements.now && placements_stand h.width plan.now (shape h) }
{
    packing::fits_all(&Shape::PLACEMENT_WIDTHS, placements, h.moves())
        && placements::all_stand(plan, h)
}

#[tactic(auto, unfolding(records::specs::Records::no_wider))]
fn operations_pass(plan: &[u8], h: Shape, operations: &[u32]) -> bool
    requires { Sized h.width plan.now (shape h) × (length operations.now ≡ length (operation_widths h.width) * h.operations) }
    ensures { result ≡ fits (operations_widths h.width (shape h)) operations.now && operations_stand h.width plan.now (shape h) }
{
    let widths = Operation::widths(h.width);
    packing::fits_all(&widths, operations, usize::from(h.operations))
        && operations::all_stand(plan, h)
}

#[tactic(auto, unfolding(records::specs::Records::no_wider))]
fn forgeries_pass(plan: &[u8], h: Shape, forgeries: &[u32]) -> bool
    requires { Sized h.width plan.now (shape h) × (shape h ≡ header_of h.width plan.now) × (operations_stand h.width plan.now (shape h) ≡ true)
        × (length forgeries.now ≡ length (forgery_widths h.width) * h.forgeries) }
    ensures { result ≡ fits (forgeries_widths h.width (shape h)) forgeries.now && forgeries_stand h.width plan.now (shape h) }
{
    let widths = Forged::widths(h.width);
    packing::fits_all(&widths, forgeries, usize::from(h.forgeries)) && forgeries::all_stand(plan, h)
}

fn delays_pass(plan: &[u8], h: Shape, delays: &[u32]) -> bool
    requires { Sized h.width plan.now (shape h) × (length delays.now ≡ length delay_widths * delay_count (shape h)) }
    ensures { result ≡ fits (delays_widths (shape h)) delays.now && delays_stand h.width plan.now (shape h) }
{
    nibbles::fit(delays) && delays::all_stand(plan, h)
}

// The tests of the parts, then that of the buffer; a plan that passes them all is copied out.
fn finish(plan: &[u8], h: Shape, parts: &Parts, out: &mut [u8]) -> Result<usize, Refusal>
    requires { Sized h.width plan.now (shape h) × (shape h ≡ header_of h.width plan.now) × Full h.width (shape h) (parts_of parts.now) }
    ensures { record { outcome = numbered result; out = out.new } ≡ into_buffer plan.now out.old
        (part_tests h.width (shape h) plan.now (parts_of parts.now) (length out.old)) }
{
    if !placements_pass(plan, h, parts.placements) {
        return Err(Refusal::Placement);
    }
    if !operations_pass(plan, h, parts.operations) {
        return Err(Refusal::Operation);
    }
    if !forgeries_pass(plan, h, parts.forgeries) {
        return Err(Refusal::Forgery);
    }
    if !delays_pass(plan, h, parts.delays) {
        return Err(Refusal::Delay);
    }
    if out.len() < plan.len() {
        return Err(Refusal::BufferShort);
    }
    out[..plan.len()].copy_from_slice(plan);
    Ok(plan.len())
}

// Are there ten numbers that fit the header's fields.
#[tactic(auto, using(bits::proofs::Packing::fits_not), unfolding(records::specs::Records::no_wider))]
fn is_header(numbers: &[u32], width: u8) -> bool
    requires { width ≤ most_width }
    ensures { result ≡ fits (header_widths width) numbers.now }
{
    numbers.len() == Shape::HEADER_FIELDS
        && packing::fits_one(&Shape::header_widths(width), numbers)
}

// Packs the lists into the buffer, at values of so many bits. The plan is made and tested in bytes of its own, so that a refusal writes nothing.
fn pack_at(width: u8, header: &[u32], parts: &Parts, out: &mut [u8]) -> Result<usize, Refusal>
    requires { width ≤ most_width }
    ensures { record { outcome = numbered result; out = out.new } ≡ pack_of width (with_header header.now parts.now) out.old }
{
    if !is_header(header, width) {
        return Err(Refusal::HeaderRange);
    }
    let h = Shape::of(header, width);
    if !h.is_in_range() {
        return Err(Refusal::HeaderRange);
    }
    if !h.has_enough_servers() {
        return Err(Refusal::TooFewServers);
    }
    if !are_implied(h, parts) {
        return Err(Refusal::Length);
    }
    let mut own = [0u8; Shape::IMPLIED_BYTES];
    write(&mut own, h, header, parts);
    let size = h.bytes();
    finish(&own[..size], h, parts, out)
}

// In the form that the caller names.
#[tactic(auto, using(crate::proofs::Tests::form_packs, crate::proofs::Tests::no_form_packs))]
pub fn pack(
    form: usize,
    header: &[u32],
    placements: &[u32],
    operations: &[u32],
    forgeries: &[u32],
    delays: &[u32],
    out: &mut [u8],
) -> Result<usize, Refusal>
    ensures { record { outcome = numbered result; out = out.new } ≡ pack_in form
        (lists_from header.now placements.now operations.now forgeries.now delays.now) out.old }
{
    if !form::is_known(form) {
        return Err(Refusal::TooShort);
    }
    let parts = Parts {
        placements,
        operations,
        forgeries,
        delays,
    };
    pack_at(form::width(form), header, &parts, out)
}
