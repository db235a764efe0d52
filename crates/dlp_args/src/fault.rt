// Why bytes are no arguments.

/// The first rule that the bytes of arguments break. A place is an offset from the first byte of the message.
#[derive(Clone, Copy)]
pub enum ArgFault {
    /// The argument that begins here passes the end, or these bytes stand after the last argument.
    Wrapper(usize),
    /// The first byte of an argument, which bears no id from 0x20 to 0x3F in one of the three forms.
    BadId(usize),
    /// The second byte of a long argument whose size is above 65,535.
    BadSize(usize),
}
