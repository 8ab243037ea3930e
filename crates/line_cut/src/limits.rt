use port_io::PIECE;

/// The most bytes of a line, without its LF.
pub const LINE_MAX: usize = 1_048_576;

/// The size of a buffer: the last line with its LF, a next line that is not whole, and the piece that is being read.
pub(crate) const SIZE: usize = LINE_MAX + 1 + LINE_MAX + PIECE;
