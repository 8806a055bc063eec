//! A layout as large as one may be.

/// A layout of eight switches of eight ports each.
/// Seven of the switches stand below the first. There are 57 functions of eight domains, each with a page of
/// memory of its own.
pub const LARGEST: &str = "pciefab 1
frames 57
switch 01:00.0 root
port 02:00.0 03 0c 90000000 907fffff 1f 1
port 02:01.0 0d 16 90800000 90ffffff 1f 2
port 02:02.0 17 20 91000000 917fffff 1f 3
port 02:03.0 21 2a 91800000 91ffffff 1f 4
port 02:04.0 2b 34 92000000 927fffff 1f 5
port 02:05.0 35 3e 92800000 92ffffff 1f 6
port 02:06.0 3f 48 93000000 937fffff 1f 7
port 02:07.0 49 52 93800000 93ffffff 1f 8
switch 03:00.0 02:00.0
port 04:00.0 05 05 90000000 900fffff 1f 1
function 05:00.0 90000000
port 04:01.0 06 06 90100000 901fffff 1f 1
function 06:00.0 90100000
port 04:02.0 07 07 90200000 902fffff 1f 1
function 07:00.0 90200000
port 04:03.0 08 08 90300000 903fffff 1f 1
function 08:00.0 90300000
port 04:04.0 09 09 90400000 904fffff 1f 1
function 09:00.0 90400000
port 04:05.0 0a 0a 90500000 905fffff 1f 1
function 0a:00.0 90500000
port 04:06.0 0b 0b 90600000 906fffff 1f 1
function 0b:00.0 90600000
port 04:07.0 0c 0c 90700000 907fffff 1f 1
function 0c:00.0 90700000
switch 0d:00.0 02:01.0
port 0e:00.0 0f 0f 90800000 908fffff 1f 2
function 0f:00.0 90800000
port 0e:01.0 10 10 90900000 909fffff 1f 2
function 10:00.0 90900000
port 0e:02.0 11 11 90a00000 90afffff 1f 2
function 11:00.0 90a00000
port 0e:03.0 12 12 90b00000 90bfffff 1f 2
function 12:00.0 90b00000
port 0e:04.0 13 13 90c00000 90cfffff 1f 2
function 13:00.0 90c00000
port 0e:05.0 14 14 90d00000 90dfffff 1f 2
function 14:00.0 90d00000
port 0e:06.0 15 15 90e00000 90efffff 1f 2
function 15:00.0 90e00000
port 0e:07.0 16 16 90f00000 90ffffff 1f 2
function 16:00.0 90f00000
switch 17:00.0 02:02.0
port 18:00.0 19 19 91000000 910fffff 1f 3
function 19:00.0 91000000
port 18:01.0 1a 1a 91100000 911fffff 1f 3
function 1a:00.0 91100000
port 18:02.0 1b 1b 91200000 912fffff 1f 3
function 1b:00.0 91200000
port 18:03.0 1c 1c 91300000 913fffff 1f 3
function 1c:00.0 91300000
port 18:04.0 1d 1d 91400000 914fffff 1f 3
function 1d:00.0 91400000
port 18:05.0 1e 1e 91500000 915fffff 1f 3
function 1e:00.0 91500000
port 18:06.0 1f 1f 91600000 916fffff 1f 3
function 1f:00.0 91600000
port 18:07.0 20 20 91700000 917fffff 1f 3
function 20:00.0 91700000
switch 21:00.0 02:03.0
port 22:00.0 23 23 91800000 918fffff 1f 4
function 23:00.0 91800000
port 22:01.0 24 24 91900000 919fffff 1f 4
function 24:00.0 91900000
port 22:02.0 25 25 91a00000 91afffff 1f 4
function 25:00.0 91a00000
port 22:03.0 26 26 91b00000 91bfffff 1f 4
function 26:00.0 91b00000
port 22:04.0 27 27 91c00000 91cfffff 1f 4
function 27:00.0 91c00000
port 22:05.0 28 28 91d00000 91dfffff 1f 4
function 28:00.0 91d00000
port 22:06.0 29 29 91e00000 91efffff 1f 4
function 29:00.0 91e00000
port 22:07.0 2a 2a 91f00000 91ffffff 1f 4
function 2a:00.0 91f00000
switch 2b:00.0 02:04.0
port 2c:00.0 2d 2d 92000000 920fffff 1f 5
function 2d:00.0 92000000
port 2c:01.0 2e 2e 92100000 921fffff 1f 5
function 2e:00.0 92100000
port 2c:02.0 2f 2f 92200000 922fffff 1f 5
function 2f:00.0 92200000
port 2c:03.0 30 30 92300000 923fffff 1f 5
function 30:00.0 92300000
port 2c:04.0 31 31 92400000 924fffff 1f 5
function 31:00.0 92400000
port 2c:05.0 32 32 92500000 925fffff 1f 5
function 32:00.0 92500000
port 2c:06.0 33 33 92600000 926fffff 1f 5
function 33:00.0 92600000
port 2c:07.0 34 34 92700000 927fffff 1f 5
function 34:00.0 92700000
switch 35:00.0 02:05.0
port 36:00.0 37 37 92800000 928fffff 1f 6
function 37:00.0 92800000
port 36:01.0 38 38 92900000 929fffff 1f 6
function 38:00.0 92900000
port 36:02.0 39 39 92a00000 92afffff 1f 6
function 39:00.0 92a00000
port 36:03.0 3a 3a 92b00000 92bfffff 1f 6
function 3a:00.0 92b00000
port 36:04.0 3b 3b 92c00000 92cfffff 1f 6
function 3b:00.0 92c00000
port 36:05.0 3c 3c 92d00000 92dfffff 1f 6
function 3c:00.0 92d00000
port 36:06.0 3d 3d 92e00000 92efffff 1f 6
function 3d:00.0 92e00000
port 36:07.0 3e 3e 92f00000 92ffffff 1f 6
function 3e:00.0 92f00000
switch 3f:00.0 02:06.0
port 40:00.0 41 41 93000000 930fffff 1f 7
function 41:00.0 93000000
port 40:01.0 42 42 93100000 931fffff 1f 7
function 42:00.0 93100000
port 40:02.0 43 43 93200000 932fffff 1f 7
function 43:00.0 93200000
port 40:03.0 44 44 93300000 933fffff 1f 7
function 44:00.0 93300000
port 40:04.0 45 45 93400000 934fffff 1f 7
function 45:00.0 93400000
port 40:05.0 46 46 93500000 935fffff 1f 7
function 46:00.0 93500000
port 40:06.0 47 47 93600000 936fffff 1f 7
function 47:00.0 93600000
port 40:07.0 48 48 93700000 937fffff 1f 7
function 48:00.0 93700000
function 49:00.0 93800000
map 05:00.0 1 frame 0 rw
map 06:00.0 1 frame 1 rw
map 07:00.0 1 frame 2 rw
map 08:00.0 1 frame 3 rw
map 09:00.0 1 frame 4 rw
map 0a:00.0 1 frame 5 rw
map 0b:00.0 1 frame 6 rw
map 0c:00.0 1 frame 7 rw
map 0f:00.0 1 frame 8 rw
map 10:00.0 1 frame 9 rw
map 11:00.0 1 frame 10 rw
map 12:00.0 1 frame 11 rw
map 13:00.0 1 frame 12 rw
map 14:00.0 1 frame 13 rw
map 15:00.0 1 frame 14 rw
map 16:00.0 1 frame 15 rw
map 19:00.0 1 frame 16 rw
map 1a:00.0 1 frame 17 rw
map 1b:00.0 1 frame 18 rw
map 1c:00.0 1 frame 19 rw
map 1d:00.0 1 frame 20 rw
map 1e:00.0 1 frame 21 rw
map 1f:00.0 1 frame 22 rw
map 20:00.0 1 frame 23 rw
map 23:00.0 1 frame 24 rw
map 24:00.0 1 frame 25 rw
map 25:00.0 1 frame 26 rw
map 26:00.0 1 frame 27 rw
map 27:00.0 1 frame 28 rw
map 28:00.0 1 frame 29 rw
map 29:00.0 1 frame 30 rw
map 2a:00.0 1 frame 31 rw
map 2d:00.0 1 frame 32 rw
map 2e:00.0 1 frame 33 rw
map 2f:00.0 1 frame 34 rw
map 30:00.0 1 frame 35 rw
map 31:00.0 1 frame 36 rw
map 32:00.0 1 frame 37 rw
map 33:00.0 1 frame 38 rw
map 34:00.0 1 frame 39 rw
map 37:00.0 1 frame 40 rw
map 38:00.0 1 frame 41 rw
map 39:00.0 1 frame 42 rw
map 3a:00.0 1 frame 43 rw
map 3b:00.0 1 frame 44 rw
map 3c:00.0 1 frame 45 rw
map 3d:00.0 1 frame 46 rw
map 3e:00.0 1 frame 47 rw
map 41:00.0 1 frame 48 rw
map 42:00.0 1 frame 49 rw
map 43:00.0 1 frame 50 rw
map 44:00.0 1 frame 51 rw
map 45:00.0 1 frame 52 rw
map 46:00.0 1 frame 53 rw
map 47:00.0 1 frame 54 rw
map 48:00.0 1 frame 55 rw
map 49:00.0 1 frame 56 rw
budget 1 16384
budget 2 16384
budget 3 16384
budget 4 16384
budget 5 16384
budget 6 16384
budget 7 16384
budget 8 16384
";
