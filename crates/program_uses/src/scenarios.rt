//! Small scenarios, each with one thing that happens.

/// A page that is written and read.
pub const WRITTEN: &[u8] =
    b"jetlab 1\nsystem frames 8 target 8 inactive 3 store 4 critical 0 delay 3\ntask 0 band 5 active 65536 soft inactive 65536 soft\nobject 0 task 0 pages 1\nthread 0 task 0\nmap 0\nwrite 0 0 616263\nread 0 0 3\norder 0 0 0\nend\n";

/// An object that is purged by force while it is volatile. It has 14 lines.
pub const FORCED: &[u8] =
    b"jetlab 1\nsystem frames 8 target 8 inactive 3 store 4 critical 0 delay 3\ntask 0 band 5 active 65536 soft inactive 65536 soft\nobject 0 task 0 pages 1\nthread 0 task 0\nmap 0\nwrite 0 0 616263\nset 0 1\nset 0 0\nread 0 0 3\nthread 1 kernel\nforce\norder 0 0 0 1 0 0\nend\n";

/// A token of FIFO that is ripe after three pages have left.
pub const RIPE: &[u8] =
    b"jetlab 1\nsystem frames 8 target 8 inactive 3 store 4 critical 0 delay 3\ntask 0 band 5 active 65536 soft inactive 65536 soft\nobject 0 task 0 pages 3\nobject 1 task 0 pages 1\nthread 0 task 0\nmap 0\nread 0 0 1\nread 0 4096 1\nread 0 8192 1\nmap 1\nset 1 1\nthread 1 kernel\nscan\nscan\nscan\nscan\nvolatiles\npurge\nscan\npurge\nscan\npurge\norder 0 0 0 0 0 1 1 1 1 0 1 1 1 1 1 1\nend\n";

/// An object of FIFO that goes for the ripe token of LIFO.
pub const MIGRATED: &[u8] =
    b"jetlab 1\nsystem frames 8 target 8 inactive 3 store 4 critical 0 delay 3\ntask 0 band 5 active 65536 soft inactive 65536 soft\nobject 0 task 0 pages 3\nobject 1 task 0 pages 1\nobject 2 task 0 pages 1\nobject 3 task 0 pages 1\nthread 0 task 0\nmap 0\nread 0 0 1\nread 0 4096 1\nread 0 8192 1\nmap 1\nmap 2\nmap 3\nset 1 577\nset 2 577\nset 3 1\nthread 1 kernel\nscan\nscan\nscan\npurge\nvolatiles\npurge\nscan\nscan\npurge\nvolatiles\norder 0 0 0 0 0 0 0 0 1 1 0 1 0 1 1 1 1 1 1 1\nend\n";

/// An object that becomes volatile in FIFO, in LIFO twice and in OBSOLETE.
pub const OBSOLETE: &[u8] =
    b"jetlab 1\nsystem frames 8 target 8 inactive 3 store 4 critical 0 delay 3\ntask 0 band 5 active 65536 soft inactive 65536 soft\nobject 0 task 0 pages 3\nobject 1 task 0 pages 1\nthread 0 task 0\nmap 0\nread 0 0 1\nread 0 4096 1\nmap 1\nset 1 1\nset 1 65\nset 1 577\nset 1 33\nthread 1 kernel\nscan\nvolatiles\nscan\nvolatiles\nvolatiles\npurge\norder 0 0 0 0 0 1 0 1 1 0 1 0 1 1\nend\n";

/// Tasks that are killed for pressure, with two frames.
pub const PRESSED: &[u8] =
    b"jetlab 1\nsystem frames 2 target 8 inactive 3 store 4 critical 2 delay 3\ntask 0 band 0 active 65536 soft inactive 65536 soft internal\ntask 1 band 3 active 65536 soft inactive 65536 soft\ntask 2 band 3 active 65536 soft inactive 65536 soft\nobject 0 task 1 pages 1\nthread 0 task 1\nmap 0\nread 0 0 1\nget 0\nthread 1 kernel\njetsam\nband 1 3\njetsam\njetsam\nband 1 4\njetsam\norder 1 0 0 1 1 1 0 1 1\nend\n";

/// A task over a limit that is not fatal.
pub const HIGH_WATER: &[u8] =
    b"jetlab 1\nsystem frames 8 target 8 inactive 3 store 4 critical 9 delay 3\ntask 0 band 0 active 65536 soft inactive 65536 soft\ntask 1 band 10 active 65536 soft inactive 1 soft\nobject 0 task 1 pages 2\nthread 0 task 1\nmap 0\nread 0 0 1\nread 0 4096 1\nthread 1 kernel\njetsam\njetsam\njetsam\norder 0 0 0 1 1 1\nend\n";

/// A task over a limit that becomes fatal.
pub const OVER_LIMIT: &[u8] =
    b"jetlab 1\nsystem frames 8 target 8 inactive 3 store 4 critical 0 delay 3\ntask 0 band 0 active 65536 soft inactive 65536 soft\ntask 1 band 10 active 65536 soft inactive 1 soft\nobject 0 task 1 pages 2\nthread 0 task 1\nmap 0\nread 0 0 1\nread 0 4096 1\nactive 1\nactive 0\nthread 1 kernel\njetsam\nlimits 1 65536 soft 1 fatal\njetsam\njetsam\norder 0 0 0 1 1 0 1 0 1\nend\n";

/// An object that is emptied by its owner.
pub const EMPTY: &[u8] =
    b"jetlab 1\nsystem frames 8 target 8 inactive 3 store 4 critical 0 delay 3\ntask 0 band 5 active 65536 soft inactive 65536 soft\nobject 0 task 0 pages 1\nthread 0 task 0\nmap 0\nset 0 2\nset 0 2\nset 0 1\nget 0\nwrite 0 0 61\nread 0 0 1\nset 0 0\nthread 1 kernel\nvolatiles\norder 0 0 0 0 0 1 0 0 0\nend\n";

/// An object of two tasks, which are killed one after the other.
pub const SHARED: &[u8] =
    b"jetlab 1\nsystem frames 8 target 8 inactive 3 store 4 critical 9 delay 3\ntask 0 band 0 active 65536 soft inactive 65536 soft\ntask 1 band 10 active 65536 soft inactive 0 soft\nobject 0 task 0 1 pages 1\nthread 0 task 0\nmap 0\nthread 1 task 1\nattach 0\nread 0 0 1\nledger\nthread 2 kernel\njetsam\njetsam\ninfo\njetsam\norder 0 1 1 2 1 2 2 2\nend\n";

/// Pages that go to a store of one page.
pub const STORED: &[u8] =
    b"jetlab 1\nsystem frames 8 target 8 inactive 1 store 1 critical 0 delay 3\ntask 0 band 5 active 65536 soft inactive 65536 soft\nobject 0 task 0 pages 3\nthread 0 task 0\nmap 0\nwrite 0 0 61\nwrite 0 4096 62\nread 0 8192 1\nactive 1\nthread 1 kernel\nscan\nscan\nscan\nscan\nscan\norder 0 0 0 0 1 1 1 1 0 1\nend\n";
