ghost use Rattle.std.specs.Prelude.{◌+◌, ◌≤◌};

// A part of a store. Its bounds are in the type, so that no other piece can exist.
#[derive(Clone, Copy)]
pub struct Piece {
    pub address: u32,
    pub length: u16,
    ghost some: { 1 ≤ length },
    ghost short: { length ≤ 256 },
    ghost ends: { address + length ≤ 4294967295 },
}
