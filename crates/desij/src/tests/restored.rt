//! Worked derivations with a dummy of each verdict: contracted, or its signal given back. Each file and
//! line was computed by a separate program.

use crate::status::Status;
use crate::tests::rows::{NAMED, Row};
use crate::tests::texts::done;

// The parts of these texts.
pub const RESTORED: &[Row] = &[
    done!(
        CLASH,
        1,
        &[CLASH_PART],
        b"part 1 own 1 inputs 2 transitions 4 places 3 restored 1\ndone 1\n"
    ),
    done!(
        TYPE_2,
        1,
        &[TYPE_2_PART],
        b"part 1 own 1 inputs 3 transitions 4 places 3 restored 0\ndone 1\n"
    ),
    done!(
        OTHER_GIVER,
        1,
        &[OTHER_GIVER_PART],
        b"part 1 own 1 inputs 4 transitions 5 places 4 restored 1\ndone 1\n"
    ),
    done!(
        MARKED,
        1,
        &[MARKED_PART],
        b"part 1 own 1 inputs 4 transitions 5 places 4 restored 1\ndone 1\n"
    ),
    done!(
        WEIGHTS,
        1,
        &[WEIGHTS_PART],
        b"part 1 own 1 inputs 2 transitions 3 places 2 restored 0\ndone 1\n"
    ),
    done!(
        WEIGHT_2,
        1,
        &[WEIGHT_2_PART],
        b"part 1 own 1 inputs 3 transitions 4 places 3 restored 1\ndone 1\n"
    ),
    done!(
        MANY_PLACES,
        1,
        &[MANY_PLACES_PART],
        b"part 1 own 1 inputs 25 transitions 26 places 25 restored 1\ndone 1\n"
    ),
    done!(
        LOOP,
        1,
        &[LOOP_PART],
        b"part 1 own 1 inputs 3 transitions 4 places 4 restored 1\ndone 1\n"
    ),
];

// A contraction that would bring a structural auto-conflict.
const CLASH: &[u8] = b".inputs a h
.outputs x
.graph
p a+ h+
h+ q
q a+/1
a+ r
a+/1 r
r x+
.marking { p }
.end
";

const CLASH_PART: &[u8] = b".model part1
.inputs a h
.outputs x
.graph
a+ p1
h+ p2
a+/1 p1
x+
p1 x+
p2 a+/1
p3 a+ h+
.marking { p3 }
.end
";

// A contraction of type 2.
const TYPE_2: &[u8] = b".inputs b c d h
.outputs x
.graph
p b+ h+
h+ q
q d+
s c+
b+ r
c+ r
d+ r
r x+
.marking { p s }
.end
";

const TYPE_2_PART: &[u8] = b".model part1
.inputs b c d
.outputs x
.graph
b+ p1
d+ p1
c+ p1
x+
p1 x+
p2 c+
p3 b+ d+
.marking { p2 p3 }
.end
";

// No contraction is secure, as another transition gives to the place after.
const OTHER_GIVER: &[u8] = b".inputs b c d h
.outputs x
.graph
p b+ h+
h+ q
c+ q
q d+
s c+
b+ r
c+ r
d+ r
r x+
.marking { p s }
.end
";

const OTHER_GIVER_PART: &[u8] = b".model part1
.inputs b c d h
.outputs x
.graph
b+ p1
h+ p2
c+ p1 p2
d+ p1
x+
p1 x+
p2 d+
p3 b+ h+
p4 c+
.marking { p3 p4 }
.end
";

// No contraction is secure, as the place after is marked.
const MARKED: &[u8] = b".inputs b c d h
.outputs x
.graph
p b+ h+
h+ q
q d+
s c+
b+ r
c+ r
d+ r
r x+
.marking { p q s }
.end
";

const MARKED_PART: &[u8] = b".model part1
.inputs b c d h
.outputs x
.graph
b+ p1
h+ p2
d+ p1
c+ p1
x+
p1 x+
p2 d+
p3 b+ h+
p4 c+
.marking { p2 p3 p4 }
.end
";

// Weights and tokens are added.
const WEIGHTS: &[u8] = b".inputs a b h
.outputs x
.graph
a+ p(2) q r
b+ r
p h+
h+ q
q b+(2)
r x+
.marking { p q=2 }
.end
";

const WEIGHTS_PART: &[u8] = b".model part1
.inputs a b
.outputs x
.graph
a+ p1 p2(3)
b+ p1
x+
p1 x+
p2 b+(2)
.marking { p2=3 }
.end
";

// A dummy that takes two tokens at once.
const WEIGHT_2: &[u8] = b".inputs a b h
.outputs x
.graph
a+ p(2) q r
b+ r
p h+(2)
h+ q
q b+(2)
r x+
.marking { p q=2 }
.end
";

const WEIGHT_2_PART: &[u8] = b".model part1
.inputs a b h
.outputs x
.graph
a+ p1(2) p2 p3
b+ p3
h+ p2
x+
p1 h+(2)
p2 b+(2)
p3 x+
.marking { p1 p2=2 }
.end
";

// A contraction that would leave 145 places where 114 are allowed.
const MANY_PLACES: &[u8] =
    b".inputs a1 a2 a3 a4 a5 a6 a7 a8 a9 a10 a11 a12 b1 b2 b3 b4 b5 b6 b7 b8 b9 b10 b11 b12 h
.outputs x
.graph
a1+ h+ r
a2+ h+ r
a3+ h+ r
a4+ h+ r
a5+ h+ r
a6+ h+ r
a7+ h+ r
a8+ h+ r
a9+ h+ r
a10+ h+ r
a11+ h+ r
a12+ h+ r
h+ b1+ b2+ b3+ b4+ b5+ b6+ b7+ b8+ b9+ b10+ b11+ b12+
b1+ r
b2+ r
b3+ r
b4+ r
b5+ r
b6+ r
b7+ r
b8+ r
b9+ r
b10+ r
b11+ r
b12+ r
r x+
.end
";

const MANY_PLACES_PART: &[u8] = b".model part1
.inputs a1 a2 a3 a4 a5 a6 a7 a8 a9 a10 a11 a12 b1 b2 b3 b4 b5 b6 b7 b8 b9 b10 b11 b12 h
.outputs x
.graph
a1+ p1 p2
h+ p3 p4 p5 p6 p7 p8 p9 p10 p11 p12 p13 p14
a2+ p2 p15
a3+ p2 p16
a4+ p2 p17
a5+ p2 p18
a6+ p2 p19
a7+ p2 p20
a8+ p2 p21
a9+ p2 p22
a10+ p2 p23
a11+ p2 p24
a12+ p2 p25
b1+ p2
b2+ p2
b3+ p2
b4+ p2
b5+ p2
b6+ p2
b7+ p2
b8+ p2
b9+ p2
b10+ p2
b11+ p2
b12+ p2
x+
p1 h+
p2 x+
p3 b1+
p4 b2+
p5 b3+
p6 b4+
p7 b5+
p8 b6+
p9 b7+
p10 b8+
p11 b9+
p12 b10+
p13 b11+
p14 b12+
p15 h+
p16 h+
p17 h+
p18 h+
p19 h+
p20 h+
p21 h+
p22 h+
p23 h+
p24 h+
p25 h+
.marking { }
.end
";

// A dummy with a loop.
const LOOP: &[u8] = b".inputs a b h
.outputs x
.graph
a+ q r
q h+
p h+
h+ p s
s b+
b+ r
r x+
.end
";

const LOOP_PART: &[u8] = b".model part1
.inputs a b h
.outputs x
.graph
a+ p1 p2
h+ p3 p4
b+ p2
x+
p1 h+
p2 x+
p3 h+
p4 b+
.marking { }
.end
";
