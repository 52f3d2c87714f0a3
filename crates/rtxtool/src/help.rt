//! What the program's help says of its formats, by an example each, of its exit statuses and of the numbers that it prints.

/// What the program is.
pub const ABOUT: &str = "\
Tries RTP retransmission (RFC 4588) with generic NACK (RFC 4585): simulates both ends of a session and
the network between them, shows traces, packs feedback";

/// Of the program as a whole.
pub const TOOL: &str = "\
Each command's --help tells its lines, with an example, and the numbers of refusals that it can print.
Payloads have up to 1200 octets, or up to as many as the program was built for: make rtxtool builds it for 1460.
Exit status: 0 done, 1 an input is refused, 2 the command line is refused, 3 a file or a socket fails,
4 memory was refused.";

/// Of `sim`.
pub const SIM: &str = "\
A script's first line is
  config FIRST RFIRST HISTORY WINDOW PATIENCE RETRY ASKS REPEATS [learn]
and each other line is an event:
  S TIMESTAMP MARKER PADDING PAYLOAD CSRC EXT   the sender sends a content
  D INDEX NOW                                   a datagram of the wire is delivered
  P NOW                                         the receiver plays
  A NOW                                         the receiver asks for what is missing
  R                                             the sender repeats what was asked for
  I r|s OCTETS NOW                              an invented datagram reaches an end
Octets are hexadecimal, none is -. Moments are in milliseconds.
Example:
  config 1 5 8 8 100 20 3 2
  S 100 1 0 aa - -
  D 0 0
  P 0
The log's `refused N` is an answer like any other:
  1 to 6 no RTP packet: too short, version, CSRC list, extension, padding; no original sequence number
  11 to 17 no feedback: too short, version, padded, not RTPFB, not a NACK, length, empty
  18, 19 feedback for another media SSRC, from another reporter
  31, 32 a packet of another SSRC, of another payload type
  33 a retransmission before the start, 34 too far, 35 late, 36 a duplicate, 37 too long,
  38 a retransmission that was not asked for while its SSRC is to be learnt, 39 past the last place
  44 padding without a payload, 45 no place is left
Exit status: 0 done, 1 a line is refused (refused 61 line L: it is no config line, or no event, or what it has is
longer than the program was built for: see rtxtool --help), 2 the command line is refused, 3 the script can't be
read or the log can't be written, 4 memory was refused.";

/// Of `show`.
pub const SHOW: &str = "\
A trace is a list of datagrams, each behind its length in two octets (RFC 4571). The lines are
  rtp TYPE SEQUENCE SSRC TIMESTAMP MARKER PADDING PAYLOAD CSRC EXT
  rtx TYPE SEQUENCE SSRC TIMESTAMP MARKER PADDING ORIGINAL PAYLOAD CSRC EXT   of type 97
  nack REPORTER MEDIA PID:BLP ..   for each NACK of a compound
  refused N   1 to 6 no RTP packet: too short, version, CSRC list, extension, padding; no original
              sequence number; 11 to 17 no feedback: too short, version, padded, not RTPFB, not a NACK,
              length, empty
Example: printf '\\0\\15\\200\\340\\0\\1\\0\\0\\0\\144\\21\\21\\21\\21\\252' | rtxtool show -
  rtp 96 1 11111111 100 1 0 aa - -
Exit status: 0 done, 1 a frame is cut off (refused 21 frame K) or longer than a datagram may be (refused 22 frame K),
2 the command line is refused, 3 the trace can't be read or the lines can't be written, 4 memory was refused.";

/// Of `pack`.
pub const PACK: &str = "\
Each line is a datagram in hexadecimal, of receiver 33333333 for media 11111111 (RFC 4585, section 6.2.1).
Example: rtxtool pack 1 17
  81cd0003333333331111111100018000
Exit status: 0 done, 1 the places don't rise or span 8192 or more (refused 63), 2 the command line is refused
(fault value: an N is no decimal from 0 to 281474976710655), 3 the lines can't be written, 4 memory was refused.";

/// Of `soak`.
pub const SOAK: &str = "\
The seed's words lose PERMILLE of 1000 packets. After each 256 packets the receiver asks, the sender retransmits, and
all that can be played is. The line counts the packets sent, lost, repaired, played and given up.
Example: rtxtool soak --seed 1 --packets 300 --loss 0
  sent 300 lost 0 repaired 0 played 300 gaps 0
Exit status: 0 done, 2 the command line is refused (fault value: --seed is no decimal from 0 to
18446744073709551615, --packets none from 1 to 10000, or --loss none from 0 to 1000), 3 the tally can't be
written, 4 memory was refused.";

/// Of `loopback`.
pub const LOOPBACK: &str = "\
The packets of LIST are not put into the socket. Three rounds follow, in which the receiver asks and the sender
retransmits, and then all that can be played is. The line counts the packets sent, dropped, repaired, played
and given up.
Example: rtxtool loopback --packets 5 --drop 1,3
  sent 5 dropped 2 repaired 2 played 5 gaps 0
Exit status: 0 done, 1 LIST is refused (refused 62: it is neither `none` nor rising decimals below N joined by
commas), 2 the command line is refused (fault value: --packets is no decimal from 1 to 1000), 3 a socket fails
(fault link) or the tally can't be written, 4 memory was refused.";
