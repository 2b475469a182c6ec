// A line of a file, without the byte 10 that ends it.
#[derive(Clone, Copy)]
pub(crate) struct Line<'a> {
    pub(crate) text: &'a [u8],
    // Whether that byte was there: the last line of a file may lack it. A flag, since either kind of line has a text, and
    // its key is judged before its end.
    pub(crate) ended: bool,
}
