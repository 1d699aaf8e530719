use response::respond::respond;
use std::test::Fail;

// A frame file, and what is printed for it.
#[derive(Clone, Copy)]
struct Case {
    file: &'static [u8],
    printed: &'static str,
}

const CASES: [Case; 25] = [
    // The town's households of examples/.
    Case {
        file: b"4,1,1066\n2,2\n1,11,4,912,0\n1,11,2,488,1\n1,11,1,305,4\n1,12,3,655,0\n1,12,5,1040,0\n1,12,2,410,3\n1,13,1,290,4\n1,13,1,345,4\n1,13,2,520,1\n1,14,4,870,2\n1,14,3,610,5\n2,21,1,260,4\n2,21,2,395,3\n2,21,6,1175,0\n2,22,2,505,1\n2,22,2,470,3\n2,23,3,700,0\n2,23,4,845,2\n2,23,1,0,5\n2,24,2,430,3\n2,24,5,990,0\n2,25,1,315,4\n2,25,3,580,5\n",
        printed: "1,28,196\n10,42,196\n15,16,128\n21,8,128\nscale,30\nmoney,451880\ntable,0,210,0,240,480,140\n",
    },
    // Two units in each cluster that is drawn.
    Case {
        file: b"4,2,99\n4\n7,0,1,1,0\n7,0,2,2,1\n7,0,3,3,2\n7,1,1,101,0\n7,1,2,102,1\n7,1,3,103,2\n7,2,1,201,0\n7,2,2,202,1\n7,2,3,203,2\n7,3,1,301,0\n7,3,2,302,1\n7,3,3,303,2\n",
        printed: "1,48,144\n2,72,144\n10,48,144\n11,72,144\nscale,1\nmoney,1524\ntable,0,6,4,0,0,0\n",
    },
    // Throws with one way among others.
    Case {
        file: b"4,1,5\n1,1,2\n0,0,1,1,0\n1,0,1,2,1\n2,0,1,0,0\n2,1,2,1,1\n2,2,1,2,2\n2,3,2,3,3\n2,4,1,4,4\n2,5,2,5,5\n2,6,1,6,0\n2,7,2,7,1\n2,8,1,8,2\n",
        printed: "0,1,1\n1,1,1\n3,8,26\n10,2,13\nscale,4\nmoney,233\ntable,4,17,26,0,0,0\n",
    },
    // Clusters with equal numbers in two strata.
    Case {
        file: b"3,1,21\n1,2\n1,5,2,3,0\n1,5,2,4,1\n2,5,2,5,2\n2,6,1,6,3\n2,6,1,7,4\n",
        printed: "0,8,16\n2,8,8\n4,4,8\nscale,1\nmoney,25\ntable,2,0,1,0,2,0\n",
    },
    // A first word that is passed over.
    Case {
        file: b"1,1,1236431772\n1\n0,0,1,0,0\n0,0,1,1,1\n0,0,1,2,2\n0,0,1,3,3\n0,0,1,4,4\n0,0,1,5,5\n0,0,1,6,0\n",
        printed: "1,7,49\nscale,1\nmoney,7\ntable,0,7,0,0,0,0\n",
    },
    // A first word that just serves.
    Case {
        file: b"1,1,2159691842\n1\n0,0,1,0,0\n0,0,1,1,1\n0,0,1,2,2\n0,0,1,3,3\n0,0,1,4,4\n0,0,1,5,5\n0,0,1,6,0\n",
        printed: "6,7,49\nscale,1\nmoney,42\ntable,7,0,0,0,0,0\n",
    },
    // A prescribed share that is not reduced.
    Case {
        file: b"2,2,6\n2\n0,0,4,1,0\n0,0,4,2,1\n0,0,8,3,2\n0,1,8,4,3\n0,1,8,5,4\n",
        printed: "0,128,512\n2,256,512\nscale,1\nmoney,10\ntable,4,0,2,0,0,0\n",
    },
    // Amounts at both ends of their range.
    Case {
        file: b"2,1,5\n2\n0,0,10000,1000000,0\n0,1,10000,-1000000,5\n0,65535,10000,0,2\n",
        printed: "1,200000000,300000000\n2,200000000,300000000\nscale,2\nmoney,-3000000\ntable,0,0,3,0,0,3\n",
    },
    // A scale of just a million.
    Case {
        file: b"5,1,1\n5\n0,0,64,0,0\n0,1,3125,1,0\n0,2,3125,2,0\n0,3,3125,3,0\n0,4,3125,4,0\n0,5,3125,5,0\n0,6,3125,6,0\n0,7,5,7,0\n",
        printed: "1,48828125,58809375\n3,48828125,58809375\n4,48828125,58809375\n5,48828125,58809375\n6,48828125,58809375\nscale,1000000\nmoney,22883904\ntable,6022080,0,0,0,0,0\n",
    },
    // A cluster that is drawn for certain.
    Case {
        file: b"2,1,12\n2\n0,0,3,4,1\n0,1,1,5,2\n0,2,2,6,3\n",
        printed: "0,18,18\n1,2,6\nscale,2\nmoney,38\ntable,0,2,6,0,0,0\n",
    },
    // An empty file.
    Case {
        file: b"",
        printed: "fault,29,1,1,0\n",
    },
    // A last line without its end byte.
    Case {
        file: b"1,1,1\n1\n1,1,1,5,0\n1,1,2,-4,4\n1,2,3,7,4",
        printed: "fault,29,5,1,0\n",
    },
    // A wrong field before a missing end byte.
    Case {
        file: b"1,1,1\n1\n1,1,x,5,0\n1,1",
        printed: "fault,30,3,3,0\n",
    },
    // No unit.
    Case {
        file: b"1,1,1\n1\n",
        printed: "fault,32,3,1,0\n",
    },
    // A 65th take.
    Case {
        file: b"1,1,1\n1,1,1,1,1,1,1,1,1,1,1,1,1,1,1,1,1,1,1,1,1,1,1,1,1,1,1,1,1,1,1,1,1,1,1,1,1,1,1,1,1,1,1,1,1,1,1,1,1,1,1,1,1,1,1,1,1,1,1,1,1,1,1,1,1\n1,1,1,5,0\n1,1,2,-4,4\n1,2,3,7,4\n",
        printed: "fault,29,2,65,0\n",
    },
    // A field too many, which is empty.
    Case {
        file: b"1,1,1\n1\n1,1,1,5,0\n1,1,2,-4,4\n1,2,3,7,4\n1,1,1,5,0,\n",
        printed: "fault,29,6,6,0\n",
    },
    // A minus before 0.
    Case {
        file: b"1,1,1\n1\n1,1,1,5,0\n1,1,2,-4,4\n1,2,3,7,4\n1,1,1,-0,0\n",
        printed: "fault,30,6,4,0\n",
    },
    // A leading zero.
    Case {
        file: b"1,1,1\n1\n1,1,1,5,0\n1,1,2,-4,4\n1,2,3,7,4\n1,01,1,5,0\n",
        printed: "fault,30,6,2,0\n",
    },
    // A seed of 0.
    Case {
        file: b"1,1,0\n1\n1,1,1,5,0\n1,1,2,-4,4\n1,2,3,7,4\n",
        printed: "fault,31,1,3,0\n",
    },
    // A stratum that falls.
    Case {
        file: b"2,1,1\n1,1\n1,1,1,0,0\n2,1,1,0,0\n1,1,1,0,0\n",
        printed: "fault,11,5,0,0\n",
    },
    // Fewer strata than takes.
    Case {
        file: b"9,1,1\n1,1,1\n1,1,1,0,0\n2,1,1,0,0\n",
        printed: "fault,12,3,0,0\n",
    },
    // A take that is no multiple.
    Case {
        file: b"5,2,1\n2,3\n1,1,1,0,0\n1,1,1,0,0\n2,1,1,0,0\n2,1,1,0,0\n2,1,1,0,0\n",
        printed: "fault,14,5,0,1\n",
    },
    // A unit too large for its cluster.
    Case {
        file: b"2,2,1\n2\n0,0,1,1,1\n0,0,5,2,2\n0,1,1,3,3\n0,1,1,4,4\n0,2,4,5,5\n0,2,2,5,5\n",
        printed: "fault,6,4,0,2\n",
    },
    // Fewer units than are drawn in a cluster of the second stratum.
    Case {
        file: b"4,2,1\n2,2\n0,0,1,0,0\n0,0,1,0,0\n1,0,1,0,0\n1,0,1,0,0\n1,1,3,0,0\n",
        printed: "fault,6,7,0,2\n",
    },
    // A scale above a million.
    Case {
        file: b"1,1,1\n1\n0,0,997,0,0\n0,0,991,0,0\n0,1,983,0,0\n0,2,1,0,0\n",
        printed: "fault,22,0,0,0\n",
    },
];

#[test]
fn files_are_answered(rt: HostRuntime) -> Result<(), Fail> {
    for case in &CASES {
        let text = respond(rt.alloc(), case.file)?;
        assert_eq!(rt; text.as_str(), case.printed);
    }
    Ok(())
}
