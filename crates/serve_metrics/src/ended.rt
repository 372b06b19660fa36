//! How a session ended.
/// How a session ended: by the code of the close frame that the server sent, or without one.
#[derive(Clone, Copy, PartialEq, Eq, Debug)]
pub enum Ended {
    /// 1000
    Normal,
    /// 1001
    Away,
    /// 1003
    Unsupported,
    /// 1008
    Policy,
    /// 1009
    Size,
    /// 1011
    Error,
    /// 3000
    Unauthorized,
    /// Its client closed it.
    Client,
    /// Its stream failed, or its client took nothing for too long.
    Stream,
}
