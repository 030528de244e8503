// The lister: a card on standard input, its listing on standard output. Document 01, "Two programs".
#![tactic(auto)]

// A card of 64 knots has 1,038 bytes, and what follows a card is told by its first byte, so a buffer of 4,096 bytes holds all that counts.
fn main() {
    let mut card = io::buffer();
    let n = io::read_full(0, &mut card);
    let mut text = io::buffer();
    let listed = card_listing::list_card(&card[..n], &mut text);
    let length = listed.length;
    io::write_all(1, &text[..length]);
}
