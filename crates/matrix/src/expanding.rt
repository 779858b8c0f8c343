// The expanding source: every seed is known, and each row is expanded from the seed and the row's number.
ghost use Rattle.std.specs.Prelude.{◌≡◌, ◌^◌, take, IfSome};
ghost use Rattle.std.proofs.Props.{props};
ghost use Rattle.matrix.specs.Expansion.{row_entries};

use crate::expansion::Shape;

mod methods;

#[derive(Drop)]
struct ExpandedRow {
    seed: [u8; 32],
    number: u16,
    // As many as the side, and then zeros: there is no heap.
    entries: [u16; 1024],
}

#[derive(Drop)]
pub struct ExpandingSource {
    shape: Shape,
    // The row that it is turned to.
    row: Option<ExpandedRow>,
    ghost expanded: { IfSome row (λ r. take shape.n r.entries ≡ row_entries shape.n (2 ^ shape.bits) r.seed r.number) } by { Prim.hlevel props },
}
