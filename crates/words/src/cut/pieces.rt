// Where a piece of some bytes ends.
ghost use Rattle.std.specs.Prelude.{◌≡◌, ◌==◌};
ghost use Rattle.std.specs.List.{position_or_len};

// Where the first piece of some bytes ends: at the first separator, or with the last byte.
pub(super) fn piece_end(bytes: &[u8], separator: u8) -> usize
    ensures { result ≡ position_or_len (λ b. b == separator) bytes.now }
{
    bytes
        .iter()
        .position(|b| *b == separator)
        .unwrap_or(bytes.len())
}
