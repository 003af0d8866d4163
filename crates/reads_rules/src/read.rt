// A read that is open: what open got, and the doublewords taken since.
use crate::request::ReadRequest;

#[derive(Clone, Copy, Debug, PartialEq, Eq)]
pub struct Read {
    pub request: ReadRequest,
    pub taken: u32,
}
