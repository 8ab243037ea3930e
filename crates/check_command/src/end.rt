/// How a check ended.
#[derive(Clone, Copy, Debug, PartialEq, Eq)]
pub enum CheckEnd {
    /// The certificate shows what it claims. This was written.
    Shown,
    /// The certificate fails, or the text is no certificate. This was written: `no LINE` if `readable`, else
    /// `unreadable LINE`.
    NotShown {
        /// The line that was written.
        line: u64,
        /// Whether the text is a certificate.
        readable: bool,
    },
    /// The text has more than `TEXT_MAX` bytes.
    Long,
    /// A read of the input failed.
    ReadFault,
    /// A write of the output failed.
    WriteFault,
    /// Out of memory.
    NoMemory,
}
