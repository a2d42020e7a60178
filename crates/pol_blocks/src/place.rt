/// A place in a list: that of an item, or the end behind all. After an insert or a removal it is sought anew.
#[derive(Clone, Copy)]
pub struct Place {
    pub(crate) block: usize,
    pub(crate) offset: usize,
}
