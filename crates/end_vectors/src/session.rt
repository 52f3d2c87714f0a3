//! The session that the rows of each end begin with.
use rtpwire::Session;
use std::test::Fail;

pub(crate) fn session() -> Result<Session, Fail> {
    match Session::new(0x11111111, 96, 0x22222222, 97, 0x33333333) {
        Ok(session) => Ok(session),
        Err(_) => Err(Fail::from("a good session")),
    }
}
