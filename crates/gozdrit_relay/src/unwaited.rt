//! Whether what is written is taken at once: who writes to a pipe or a terminal that nobody reads stands still with it.
use libc::net as c;
use libc::types::pollfd;
use std::os::fd::AsRawFd;

/// Whether the system takes a line for this file without waiting (poll(2)): a pipe has room for 4096 octets then, which is more than any
/// line has. A file on a disk always has, as far as the system says.
pub fn takes_a_line<F: AsRawFd>(file: &F) -> bool {
    let mut asked = [pollfd {
        fd: file.as_raw_fd(),
        events: c::POLLOUT,
        revents: 0,
    }];
    c::poll(&mut asked, 0) == 1 && asked[0].revents & c::POLLOUT != 0
}
