use super::*;
use es_base::NoMemory;
use es_tree::{Tree, TreeFault, read};

// How many scalars stand at a path, and whether one more would be too many.
#[derive(Drop)]
struct Count {
    so_far: u64,
}

impl ScalarVisitor for Count {
    ghost use Rattle.std.specs.Prelude.{◌+◌, nat_lt, if◌then◌else◌};

    ghost after = { λ count _. record count { so_far = (if nat_lt count.so_far 18446744073709551615 then count.so_far + 1 else count.so_far) } };

    fn visit(&mut self, _scalar: &Tree) -> Result<(), NoMemory> {
        if self.so_far < u64::MAX {
            self.so_far += 1;
        }
        Ok(())
    }
}

#[test]
fn goes_over_scalars(rt: HostRuntime) -> Result<(), TreeFault> {
    let tree = read(
        rt.alloc(),
        br#"{"a":[1,{"b":[2,null,[{"c":3}]]},"x"],"a.b":true}"#,
    )?;
    for (path, wanted) in [("a", 2u64), ("a.b", 3), ("a.b.c", 1), ("b", 0), ("", 0)] {
        let mut count = Count { so_far: 0 };
        visit_at(&tree, path, &mut count)?;
        assert_eq!(rt; count.so_far, wanted, "at {path}");
    }
    Ok(())
}
