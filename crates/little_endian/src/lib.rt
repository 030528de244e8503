// Little-endian numbers at an offset of a list of bytes: document 01, "Card bytes". Each function asks for an offset at which the number lies inside the list.
#![tactic(auto, using(crate::proofs::Bytes::numbers), unfolding(crate::specs::Numbers::signed_at, crate::specs::Numbers::signed_bytes))]

ghost use Rattle.std.specs.Prelude.{◌≡◌, ◌+◌, ◌≤◌, length};
ghost use Rattle.std.proofs.lemmas.List.Edits.{sets};
ghost use Rattle.std.specs.Int.{w16, w32};
ghost use Rattle.little_endian.specs.Numbers.{le, num_at, signed_bytes, signed_at};

// One function for each type: a trait over them would repeat in each impl the line that its function is.
pub fn read_u16(list: &[u8], at: usize) -> u16
    requires { at + 2 ≤ length list.now }
    ensures { result ≡ num_at 2 list.now at }
{
    u16::from_le_bytes([list[at], list[at + 1]])
}

pub fn read_i16(list: &[u8], at: usize) -> i16
    requires { at + 2 ≤ length list.now }
    ensures { result ≡ signed_at w16 list.now at }
{
    read_u16(list, at).cast_signed()
}

pub fn read_i32(list: &[u8], at: usize) -> i32
    requires { at + 4 ≤ length list.now }
    ensures { result ≡ signed_at w32 list.now at }
{
    i32::from_le_bytes([list[at], list[at + 1], list[at + 2], list[at + 3]])
}

pub fn write_u16(list: &mut [u8], at: usize, number: u16)
    requires { at + 2 ≤ length list.old }
    ensures { list.new ≡ sets list.old at (le 2 number) }
{
    list[at..at + 2].copy_from_slice(&number.to_le_bytes());
}

pub fn write_i16(list: &mut [u8], at: usize, number: i16)
    requires { at + 2 ≤ length list.old }
    ensures { list.new ≡ sets list.old at (signed_bytes w16 number) }
{
    write_u16(list, at, number.cast_unsigned());
}

pub fn write_i32(list: &mut [u8], at: usize, number: i32)
    requires { at + 4 ≤ length list.old }
    ensures { list.new ≡ sets list.old at (signed_bytes w32 number) }
{
    list[at..at + 4].copy_from_slice(&number.to_le_bytes());
}
