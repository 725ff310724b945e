//! Worked derivations with contractions of type 1 and redundant places and dummies. Each file and line
//! was computed by a separate program.

use crate::status::Status;
use crate::tests::rows::{NAMED, Row};
use crate::tests::texts::done;

// The parts of these texts, in which nothing is given back.
pub const DERIVED: &[Row] = &[
    done!(
        VME,
        3,
        &[VME_PART_1, VME_PART_2, VME_PART_3],
        b"part 1 own 1 inputs 3 transitions 8 places 9 restored 0
part 2 own 1 inputs 2 transitions 6 places 7 restored 0
part 3 own 1 inputs 1 transitions 4 places 4 restored 0
done 3
"
    ),
    done!(
        UNMARKED,
        2,
        &[UNMARKED_PART_1, UNMARKED_PART_2],
        b"part 1 own 1 inputs 1 transitions 4 places 4 restored 0
part 2 own 1 inputs 1 transitions 4 places 4 restored 0
done 2
"
    ),
    done!(
        SIDE_BY_SIDE,
        1,
        &[SIDE_BY_SIDE_PART],
        b"part 1 own 1 inputs 1 transitions 3 places 3 restored 0\ndone 1\n"
    ),
    done!(
        CHAIN,
        1,
        &[CHAIN_PART],
        b"part 1 own 1 inputs 1 transitions 4 places 4 restored 0\ndone 1\n"
    ),
    done!(
        TWINS,
        1,
        &[TWINS_PART],
        b"part 1 own 1 inputs 1 transitions 2 places 1 restored 0\ndone 1\n"
    ),
    done!(
        EMPTY_TWINS,
        1,
        &[EMPTY_TWINS_PART],
        b"part 1 own 1 inputs 1 transitions 2 places 1 restored 0\ndone 1\n"
    ),
    done!(
        INNER,
        2,
        &[INNER_PART_1, INNER_PART_2],
        b"part 1 own 1 inputs 1 transitions 4 places 4 restored 0
part 2 own 1 inputs 1 transitions 4 places 4 restored 0
done 2
"
    ),
];

// The read cycle of a bus controller.
const VME: &[u8] = b".model vme
.inputs dsr ldtack
.outputs lds d dtack
.graph
dsr+ lds+
lds+ ldtack+
ldtack+ d+
d+ dtack+
dtack+ dsr-
dsr- d-
d- dtack- lds-
dtack- dsr+
lds- ldtack-
ldtack- lds+
.marking { <dtack-,dsr+> <ldtack-,lds+> }
.end
";

const VME_PART_1: &[u8] = b".model part1
.inputs dsr ldtack d
.outputs lds
.graph
dsr+ p1
lds+ p2
ldtack+ p3
d+ p4
dsr- p5
d- p6 p7
lds- p8
ldtack- p9
p1 lds+
p2 ldtack+
p3 d+
p4 dsr-
p5 d-
p6 lds-
p7 dsr+
p8 ldtack-
p9 lds+
.marking { p7 p9 }
.end
";

const VME_PART_2: &[u8] = b".model part2
.inputs dsr ldtack
.outputs d
.graph
dsr+ p1
ldtack+ p2
d+ p3
dsr- p4
d- p5 p6
ldtack- p7
p1 ldtack+
p2 d+
p3 dsr-
p4 d-
p5 dsr+
p6 ldtack-
p7 ldtack+
.marking { p5 p7 }
.end
";

const VME_PART_3: &[u8] = b".model part3
.inputs d
.outputs dtack
.graph
d+ p1
dtack+ p2
d- p3
dtack- p4
p1 dtack+
p2 d-
p3 dtack-
p4 d+
.marking { p4 }
.end
";

// Two handshakes, of which the second has no token.
const UNMARKED: &[u8] = b".inputs r1 r2
.outputs a1 a2
.graph
r1+ a1+
a1+ r1-
r1- a1-
a1- r1+
r2+ a2+
a2+ r2-
r2- a2-
a2- r2+
.marking { <a1-,r1+> }
.end
";

const UNMARKED_PART_1: &[u8] = b".model part1
.inputs r1
.outputs a1
.graph
r1+ p1
a1+ p2
r1- p3
a1- p4
p1 a1+
p2 r1-
p3 a1-
p4 r1+
.marking { p4 }
.end
";

const UNMARKED_PART_2: &[u8] = b".model part2
.inputs r2
.outputs a2
.graph
r2+ p1
a2+ p2
r2- p3
a2- p4
p1 a2+
p2 r2-
p3 a2-
p4 r2+
.marking { }
.end
";

// Equal edges side by side.
const SIDE_BY_SIDE: &[u8] = b".inputs a
.outputs x
.graph
p a+
q a+/1
a+ r
a+/1 r
r x+
.marking { p q }
.end
";

const SIDE_BY_SIDE_PART: &[u8] = b".model part1
.inputs a
.outputs x
.graph
a+ p1
a+/1 p1
x+
p1 x+
p2 a+
p3 a+/1
.marking { p2 p3 }
.end
";

// A shortcut over three places.
const CHAIN: &[u8] = b".inputs a
.outputs x
.graph
a+ x+ x-
x+ a-
a- x-
x- a+
.marking { <x-,a+> }
.end
";

const CHAIN_PART: &[u8] = b".model part1
.inputs a
.outputs x
.graph
a+ p1
x+ p2
x- p3
a- p4
p1 x+
p2 a-
p3 a+
p4 x-
.marking { p3 }
.end
";

// Two places with the same arcs, of which the first has a token.
const TWINS: &[u8] = b".inputs a
.outputs x
.graph
a+ p q
p x+
q x+
.marking { }
.end
";

const TWINS_PART: &[u8] = b".model part1
.inputs a
.outputs x
.graph
a+ p1
x+
p1 x+
.marking { }
.end
";

// The same without a token.
const EMPTY_TWINS: &[u8] = b".inputs a
.outputs x
.graph
a+ p q
p x+
q x+
.marking { p }
.end
";

const EMPTY_TWINS_PART: &[u8] = b".model part1
.inputs a
.outputs x
.graph
a+ p1
x+
p1 x+
.marking { }
.end
";

// An internal signal that another part knows.
const INNER: &[u8] = b".inputs a
.outputs x
.internal m
.graph
a+ m+
m+ x+
x+ a-
a- m-
m- x-
x- a+
.marking { <x-,a+> }
.end
";

const INNER_PART_1: &[u8] = b".model part1
.inputs m
.outputs x
.graph
m+ p1
x+ p2
m- p3
x- p4
p1 x+
p2 m-
p3 x-
p4 m+
.marking { p4 }
.end
";

const INNER_PART_2: &[u8] = b".model part2
.inputs a
.outputs m
.graph
a+ p1
m+ p2
a- p3
m- p4
p1 m+
p2 a-
p3 m-
p4 a+
.marking { p4 }
.end
";
