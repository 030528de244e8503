// BOOK:ROOM in place of a card's file: the name of a book, a colon, and a room.

// What stands before the last colon, and what stands behind it.
fn parts(name: &[u8]) -> Option<(&[u8], &[u8])> {
    let colon = name.iter().rposition(|byte| *byte == b':')?;
    Some((&name[..colon], &name[colon + 1..]))
}

// Digits behind the last colon that are no room, since they may have been meant as one.
pub(crate) fn tell_odd(rt: HostRuntime, name: &[u8]) {
    if let Some((_, word)) = parts(name) {
        if crate::arguments::nearly(word) {
            crate::arguments::complain(rt, word);
        }
    }
}

// The book's name and the room, where a name says these. A room has one spelling, as every number among the
// arguments, and a book has a name.
pub(crate) fn named(name: &[u8]) -> Option<(&[u8], u16)> {
    let (book, word) = parts(name)?;
    let room = crate::arguments::whole(word)?;
    if book.is_empty() {
        None
    } else {
        Some((book, room))
    }
}
