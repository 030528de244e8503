// Bytes moved within a list, up or down, and bytes copied into one. Each function asks for places that lie inside the list.
#![tactic(auto)]

ghost use Rattle.std.specs.Prelude.{◌≡◌, ◌+◌, ◌≤◌, length, drop};
ghost use Rattle.std.proofs.Math.Seq.{paste};
ghost use Rattle.std.proofs.lemmas.List.Edits.{sets};

// `count` bytes from `from` on, moved to `to`, whichever lies first.
pub fn slide(list: &mut [u8], from: usize, to: usize, count: usize)
    requires { (from + count ≤ length list.old) × (to + count ≤ length list.old) }
    ensures { list.new ≡ paste list.old to (drop from list.old) count }
{
    list.copy_within(from..from + count, to);
}

// A part, stored from `at` on, byte by byte: for std's copy_from_slice of lists whose places may be any, the
// archive for C would call memmove, where it needs memcpy and memset alone.
pub fn copy_in(part: &[u8], list: &mut [u8], at: usize)
    requires { at + length part.now ≤ length list.old }
    ensures { list.new ≡ sets list.old at part.now }
{
    for i in 0..part.len() {
        list[at + i] = part[i];
    }
}
