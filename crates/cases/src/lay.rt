// A record's body taken apart into what is lent to the library: six numbers of two bytes, then minutes, ordinates, slopes and curvatures, then bytes.
ghost use Rattle.std.specs.Prelude.{◌+◌, ◌≤◌, length};

use crate::ask;
use crate::ask::Question;
use std::io::Result;

// At most so many places has a list, one more than a card that is refused for its knots has.
const MOST: usize = 66;

// How many places a list has.
fn places(body: &[u8], at: usize) -> usize
    requires { at + 2 ≤ length body.now }
    ensures { result ≤ 66 }
{
    (little_endian::read_u16(body, at) as usize).min(MOST)
}

// A number in bytes, the lowest first.
trait Little: Copy {
    // The one at the front, and what is behind it; nothing where there are too few.
    fn first(bytes: &[u8]) -> Option<(Self, &[u8])>;
}

impl Little for u16 {
    fn first(bytes: &[u8]) -> Option<(u16, &[u8])> {
        let (number, behind) = bytes.split_first_chunk::<2>()?;
        Some((u16::from_le_bytes(*number), behind))
    }
}

impl Little for i16 {
    fn first(bytes: &[u8]) -> Option<(i16, &[u8])> {
        let (number, behind) = bytes.split_first_chunk::<2>()?;
        Some((i16::from_le_bytes(*number), behind))
    }
}

impl Little for i32 {
    fn first(bytes: &[u8]) -> Option<(i32, &[u8])> {
        let (number, behind) = bytes.split_first_chunk::<4>()?;
        Some((i32::from_le_bytes(*number), behind))
    }
}

// The numbers that lie one behind the other at the front of bytes, as far as these go.
fn fill<T: Little>(list: &mut [T], bytes: &[u8]) {
    let mut rest = bytes;
    for place in list.iter_mut() {
        let Some((number, behind)) = T::first(rest) else {
            return;
        };
        *place = number;
        rest = behind;
    }
}

pub(crate) fn question(rt: HostRuntime, asked: Question, body: &mut [u8]) -> Result<()> {
    if body.len() < 12 {
        return Ok(());
    }
    let left = little_endian::read_u16(body, 8);
    let asked = match asked {
        Question::Bytes(asked) => return ask::of_bytes(rt, asked, left, &body[12..]),
        Question::Knots(asked) => asked,
    };
    let right = little_endian::read_u16(body, 10);
    let x = places(body, 0);
    let y = places(body, 2);
    let m = places(body, 4);
    let c = places(body, 6);
    let behind_minutes = 12 + 2 * x;
    let behind_ordinates = behind_minutes + 2 * y;
    let behind_slopes = behind_ordinates + 4 * m;
    let rest = behind_slopes + 4 * c;
    if body.len() < rest {
        return Ok(());
    }
    let mut minutes = [0u16; MOST];
    let mut ordinates = [0i16; MOST];
    let mut slopes = [0i32; MOST];
    let mut curvatures = [0i32; MOST];
    fill(&mut minutes, &body[12..]);
    fill(&mut ordinates, &body[behind_minutes..]);
    fill(&mut slopes, &body[behind_ordinates..]);
    fill(&mut curvatures, &body[behind_slopes..]);
    ask::of_knots(
        rt,
        asked,
        left,
        right,
        &mut minutes[..x],
        &mut ordinates[..y],
        &mut slopes[..m],
        &mut curvatures[..c],
        &mut body[rest..],
    )
}
