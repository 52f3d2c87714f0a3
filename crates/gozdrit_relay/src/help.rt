//! What the program's help says beside the options.

/// What the program is.
pub const ABOUT: &str = "\
Protects an RTP stream by retransmission (RFC 4588) with generic NACK (RFC 4585): one relay before the
network that loses, and one behind it";

/// Of the program as a whole.
pub const PROGRAM: &str = "\
  gozdrit-relay send    --listen 127.0.0.1:5004 --to far.example:6004
  gozdrit-relay receive --listen 0.0.0.0:6004   --to 127.0.0.1:5006 --latency 200
A number may have its unit behind it: 200ms or 2s, 90s, 5m or 2h, 500k or 2M bits a second, 10%, 64KiB or 4MiB.
  gozdrit-relay ctl     /run/relay.sock stats
Exit status: 0 a bound was reached, or it was stopped, 1 ctl was refused or not answered, 2 the command line is
refused, 3 an address, a file or a socket fails, 4 memory was refused.";

/// Of `send`.
pub const SEND: &str = "\
The first packet of the application tells the session's payload type, SSRC and first sequence number where no
option does. Feedback is heard from the address of --to alone. A stream that is silent for 100 ms has its last
packet retransmitted once; one that is silent for a second may go on with another SSRC.";

/// Of `receive`.
pub const RECEIVE: &str = "\
The first RTP packet tells the session and its far side, which alone is heard from then on; where nothing came from
there for four of its gaps, 100 ms at least, four packets that go on with the session show its new address, as where a
NAT binds anew. Where nothing was taken for a second, the next packet of another session begins one anew, and what is
played goes on. A session whose sender sends no stream falls to one that does.";

/// Of `ctl`.
pub const CTL: &str = "\
The answer is printed. Exit status: 0 the relay did what was asked for, 1 it refused it or did not answer.";
