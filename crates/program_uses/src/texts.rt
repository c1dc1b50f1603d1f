//! Two scenarios, and what the commands write of them.

/// One object of one page is written and read.
pub const FIRST: &[u8] =
    b"jetlab 1\nsystem frames 8 target 8 inactive 3 store 4 critical 0 delay 3\ntask 0 band 5 active 65536 soft inactive 65536 soft\nobject 0 task 0 pages 1\nthread 0 task 0\nmap 0\nwrite 0 0 616263\nread 0 0 3\norder 0 0 0\nend\n";

/// The same with its history.
pub const FIRST_RUN: &[u8] =
    b"jetlab 1\nsystem frames 8 target 8 inactive 3 store 4 critical 0 delay 3\ntask 0 band 5 active 65536 soft inactive 65536 soft\nobject 0 task 0 pages 1\nthread 0 task 0\nmap 0\nwrite 0 0 616263\nread 0 0 3\norder 0 0 0\nend\nhistory\n0 map 0 = mapped\n0 write 0 0 616263 = wrote\n0 read 0 0 3 = bytes 616263\ndone 3\n";

/// An object is written, purged while it is volatile, and read, with the history.
pub const PURGED: &[u8] =
    b"jetlab 1\nsystem frames 8 target 8 inactive 3 store 4 critical 0 delay 3\ntask 0 band 5 active 65536 soft inactive 65536 soft\nobject 0 task 0 pages 1\nthread 0 task 0\nmap 0\nwrite 0 0 616263\nset 0 1\nset 0 0\nread 0 0 3\nthread 1 kernel\nforce\norder 0 0 0 1 0 0\nend\nhistory\n0 map 0 = mapped\n0 write 0 0 616263 = wrote\n0 set 0 1 = old nonvolatile\n1 force = purged 0\n0 set 0 0 = old empty\n0 read 0 0 3 = bytes 000000\ndone 6\n";

/// The table of it.
pub const PURGED_TABLE: &[u8] =
    b"entries 6 purged 1 killed 0\ntask 0 band 5 idle pages 1 0 0 0 1\nobject 0 task 0 nonvolatile 1 0 0\nframes 7 1 0 0 0 0\ntokens 0 0 0 0 0 0 0 0 0 0 0 0\n";

/// Why entry 3 of it was answered so.
pub const PURGED_WHY: &[u8] =
    b"entry 3: 1 force = purged 0\nbecause forced fifo group 0 object 0\n";

/// The same with another reply at place 4.
pub const OTHER_REPLY: &[u8] =
    b"jetlab 1\nsystem frames 8 target 8 inactive 3 store 4 critical 0 delay 3\ntask 0 band 5 active 65536 soft inactive 65536 soft\nobject 0 task 0 pages 1\nthread 0 task 0\nmap 0\nwrite 0 0 616263\nset 0 1\nset 0 0\nread 0 0 3\nthread 1 kernel\nforce\norder 0 0 0 1 0 0\nend\nhistory\n0 map 0 = mapped\n0 write 0 0 616263 = wrote\n0 set 0 1 = old nonvolatile\n1 force = purged 0\n0 set 0 0 = old volatile\n0 read 0 0 3 = bytes 000000\ndone 6\n";

/// The line of an input that can't be read.
pub const READ_FAULT: &[u8] = b"jetlab: read fault\n";
