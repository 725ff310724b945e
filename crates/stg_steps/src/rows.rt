//! Specifications, and the logs of the parts of their plain groups. Each log was worked out by hand
//! or by a separate program.

/// A specification's text, with the logs of the parts of its plain groups in their order.
pub struct Row {
    /// What the specification shows.
    pub name: &'static str,
    /// Its text.
    pub text: &'static [u8],
    /// The logs of its parts.
    pub logs: &'static [&'static [u8]],
}

const BUS: &[u8] = b".model vme
.inputs dsr ldtack
.outputs lds d dtack
.graph
dsr+ lds+
lds+ ldtack+
ldtack+ d+
d+ dtack+
dtack+ dsr-
dsr- d-
d- dtack- lds-
dtack- dsr+
lds- ldtack-
ldtack- lds+
.marking { <dtack-,dsr+> <ldtack-,lds+> }
.end
";

const HANDSHAKES: &[u8] = b".inputs r1 r2
.outputs a1 a2
.graph
r1+ a1+
a1+ r1-
r1- a1-
a1- r1+
r2+ a2+
a2+ r2-
r2- a2-
a2- r2+
.marking { <a1-,r1+> <a2-,r2+> }
.end
";

const ONE_MARKED: &[u8] = b".inputs r1 r2
.outputs a1 a2
.graph
r1+ a1+
a1+ r1-
r1- a1-
a1- r1+
r2+ a2+
a2+ r2-
r2- a2-
a2- r2+
.marking { <a1-,r1+> }
.end
";

pub const CLASH: &[u8] = b".inputs a h
.outputs x
.graph
p a+ h+
h+ q
q a+/1
a+ r
a+/1 r
r x+
.marking { p }
.end
";

const TYPE_2: &[u8] = b".inputs b c d h
.outputs x
.graph
p b+ h+
h+ q
q d+
s c+
b+ r
c+ r
d+ r
r x+
.marking { p s }
.end
";

const SECOND_GIVER: &[u8] = b".inputs b c d h
.outputs x
.graph
p b+ h+
h+ q
c+ q
q d+
s c+
b+ r
c+ r
d+ r
r x+
.marking { p s }
.end
";

const MARKED_BEHIND: &[u8] = b".inputs b c d h
.outputs x
.graph
p b+ h+
h+ q
q d+
s c+
b+ r
c+ r
d+ r
r x+
.marking { p q s }
.end
";

const WEIGHTS: &[u8] = b".inputs a b h
.outputs x
.graph
a+ p(2) q r
b+ r
p h+
h+ q
q b+(2)
r x+
.marking { p q=2 }
.end
";

const HEAVY: &[u8] = b".inputs a b h
.outputs x
.graph
a+ p(2) q r
b+ r
p h+(2)
h+ q
q b+(2)
r x+
.marking { p q=2 }
.end
";

const WIDE: &[u8] =
    b".inputs a1 a2 a3 a4 a5 a6 a7 a8 a9 a10 a11 a12 b1 b2 b3 b4 b5 b6 b7 b8 b9 b10 b11 b12 h
.outputs x
.graph
a1+ h+ r
a2+ h+ r
a3+ h+ r
a4+ h+ r
a5+ h+ r
a6+ h+ r
a7+ h+ r
a8+ h+ r
a9+ h+ r
a10+ h+ r
a11+ h+ r
a12+ h+ r
h+ b1+ b2+ b3+ b4+ b5+ b6+ b7+ b8+ b9+ b10+ b11+ b12+
b1+ r
b2+ r
b3+ r
b4+ r
b5+ r
b6+ r
b7+ r
b8+ r
b9+ r
b10+ r
b11+ r
b12+ r
r x+
.end
";

const CHAIN: &[u8] = b".inputs a
.outputs x
.graph
a+ x+ x-
x+ a-
a- x-
x- a+
.marking { <x-,a+> }
.end
";

const BOTH_EMPTY: &[u8] = b".inputs a
.outputs x
.graph
a+ p q
p x+
q x+
.marking { }
.end
";

const FIRST_MARKED: &[u8] = b".inputs a
.outputs x
.graph
a+ p q
p x+
q x+
.marking { p }
.end
";

const WITH_LOOP: &[u8] = b".inputs a b h
.outputs x
.graph
a+ q r
q h+
p h+
h+ p s
s b+
b+ r
r x+
.end
";

/// Rows in which each verdict, each rule and both types come, but for the verdict `large` and the
/// rule by which two dummies are the same.
pub const ROWS: &[Row] = &[
    Row {
        name: "the read cycle of a bus controller",
        text: BUS,
        logs: &[
            b"contract dtack+ type1 places 1
contract dtack- type1 places 1
end
",
            b"contract dtack+ type1 places 1
contract dtack- type1 places 1
contract lds- type1 places 1
contract lds+ type1 places 2
end
",
            b"contract dsr+ type1 places 1
contract ldtack+ type1 places 1
contract dsr- type1 places 1
contract lds- type1 places 1
contract ldtack- type1 places 1
drop place 15 shortcut
contract lds+ type1 places 1
end
",
        ],
    },
    Row {
        name: "two handshakes with a token each",
        text: HANDSHAKES,
        logs: &[
            b"contract r2+ type1 places 1
contract a2+ type1 places 1
contract r2- type1 places 1
drop place 10 loop
drop dummy a2- loop
end
",
            b"contract r1+ type1 places 1
contract a1+ type1 places 1
contract r1- type1 places 1
drop place 10 loop
drop dummy a1- loop
end
",
        ],
    },
    Row {
        name: "two handshakes, one without a token",
        text: ONE_MARKED,
        logs: &[
            b"contract r2+ type1 places 1
contract a2+ type1 places 1
contract r2- type1 places 1
drop dummy a2- loop
drop place 10 loop
end
",
            b"contract r1+ type1 places 1
contract a1+ type1 places 1
contract r1- type1 places 1
drop place 10 loop
drop dummy a1- loop
end
",
        ],
    },
    Row {
        name: "a contraction that would bring a clash",
        text: CLASH,
        logs: &[
            b"restore h h+ clash a+ a+/1
end
",
        ],
    },
    Row {
        name: "a dummy of type 2",
        text: TYPE_2,
        logs: &[
            b"contract h+ type2 places 1
end
",
        ],
    },
    Row {
        name: "a second giver",
        text: SECOND_GIVER,
        logs: &[
            b"restore h h+ insecure
end
",
        ],
    },
    Row {
        name: "a marked place behind a dummy",
        text: MARKED_BEHIND,
        logs: &[
            b"restore h h+ insecure
end
",
        ],
    },
    Row {
        name: "weights beside a dummy",
        text: WEIGHTS,
        logs: &[
            b"contract h+ type1 places 1
end
",
        ],
    },
    Row {
        name: "a weight at a dummy",
        text: HEAVY,
        logs: &[
            b"restore h h+ weight
end
",
        ],
    },
    Row {
        name: "a dummy that would make too many places",
        text: WIDE,
        logs: &[
            b"restore h h+ places 145
end
",
        ],
    },
    Row {
        name: "a chain beside a place",
        text: CHAIN,
        logs: &[
            b"drop place 1 shortcut
end
",
        ],
    },
    Row {
        name: "equal places without tokens",
        text: BOTH_EMPTY,
        logs: &[
            b"drop place 1 same 0
end
",
        ],
    },
    Row {
        name: "equal places, the first with a token",
        text: FIRST_MARKED,
        logs: &[
            b"drop place 0 same 1
end
",
        ],
    },
    Row {
        name: "a dummy with a loop",
        text: WITH_LOOP,
        logs: &[
            b"restore h h+ loop
end
",
        ],
    },
];
