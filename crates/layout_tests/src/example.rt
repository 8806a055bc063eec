//! The layout of the tests.

/// A tree of two switches: two domains, four functions.
pub const EXAMPLE: &str = "pciefab 1
frames 4
switch 01:00.0 root
port 02:00.0 03 03 90000000 900fffff 1f 1
port 02:01.0 04 07 90100000 902fffff 1f 2
port 02:02.0 08 09 90300000 903fffff 1f 1
switch 04:00.0 02:01.0
port 05:00.0 06 06 90100000 901fffff 1f 2
port 05:01.0 07 07 90200000 902fffff 1f 2
function 03:00.0 90000000
function 06:00.0 90100000
function 07:00.0 90200000
function 08:00.0 90300000
map 03:00.0 1 frame 0 rw
map 03:00.0 2 peer 08:00.0 rw
budget 1 1000
budget 2 6000
";
