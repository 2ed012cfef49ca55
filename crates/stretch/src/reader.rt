// What a reader of a stored stretch holds. Its calls are in `steps`.
ghost use Rattle.std.specs.Prelude.{◌+◌, ◌^◌, ◌<◌, length};

pub mod steps;

// What is left of a stretch, and the place of its first byte. It borrows the stretch and copies nothing.
#[derive(Drop)]
pub struct Stretch<'a> {
    rest: &'a [u8],
    place: u64,
    // so every place up to the end can be counted
    ghost within: { place + length rest.now < 2 ^ 64 },
}
