// The bytes of a file, or of a room's card, under the name by which they were asked for.
#[derive(Clone, Copy)]
pub(crate) struct Source<'a> {
    pub(crate) name: &'a [u8],
    pub(crate) bytes: &'a [u8],
}
