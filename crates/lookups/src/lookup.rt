// Lookups: they splay, and so they change the tree.
ghost use Rattle.std.specs.Prelude.{ℕ};
ghost use Rattle.rules.specs.Edition.{edition};
ghost use Rattle.rules.specs.Command.{get, write};
ghost use Rattle.rules.specs.Tree.{Tree};
ghost use Rattle.rules.specs.Perform.{State, perform};
ghost use Rattle.node.specs.Stands.{Stands};
ghost use Rattle.heads.specs.Headed.{Headed, Somehow, Obeyed};
ghost use Rattle.lookups.specs.Met.{Few, Meets};

use heads::{Answer, Code, Done, Head};
use node::{Key, key_of, put_value};
use splay::splay;

// What the key meets at the root after the splay: whether it is the root's, the root's link or 0 for no tree, and the comparisons. (`here`
// is no Option: root and count stand beside it in both cases.)
#[derive(Clone, Copy, Debug, PartialEq, Eq)]
pub struct Met {
    pub here: bool,
    pub root: u32,
    pub count: u32,
}

// Splay, then compare with the root.
pub fn bring<K: Key>(a: &mut [u32], root: u32, key: u64) -> Met
    requires { (t : Tree ℕ) × Few K.WORDS a.old root t }
    ensures { (t : Tree ℕ) → Stands (edition K.WORDS) a.old root t →
        Meets K.WORDS key t a.old a.new result }
{
    if root == 0 {
        return Met {
            here: false,
            root: 0,
            count: 0,
        };
    }
    let s = splay::<K>(a, root, key);
    let x = s.root;
    let n = (s.count + 1) as u32;
    if key_of::<K>(a, x).number() == key {
        return Met {
            here: true,
            root: x,
            count: n,
        };
    }
    Met {
        here: false,
        root: x,
        count: n,
    }
}

// 1 get.
pub fn get<K: Key>(a: &mut [u32], head: Head, key: K) -> Done<K>
    requires { Somehow K.WORDS a.old head }
    ensures { (st : State ℕ) → Headed K.WORDS a.old head st →
        Obeyed K.number K.WORDS (perform (edition K.WORDS) (get (K.number key)) st) st a.old a.new result }
{
    let m = bring::<K>(a, head.root, key.number());
    let h = head.rooted(m.root);
    if !m.here {
        return Done {
            answer: Answer::bare(Code::Absent, m.count),
            head: h,
        };
    }
    Done {
        answer: Answer::entry(a, m.root, Code::Found, m.count),
        head: h,
    }
}

// 2 write if present.
pub fn write<K: Key>(a: &mut [u32], head: Head, key: K, value: u32) -> Done<K>
    requires { Somehow K.WORDS a.old head }
    ensures { (st : State ℕ) → Headed K.WORDS a.old head st →
        Obeyed K.number K.WORDS (perform (edition K.WORDS) (write (K.number key) value) st) st a.old a.new result }
{
    let m = bring::<K>(a, head.root, key.number());
    let h = head.rooted(m.root);
    if !m.here {
        return Done {
            answer: Answer::bare(Code::Absent, m.count),
            head: h,
        };
    }
    let r = Answer::entry(a, m.root, Code::Replaced, m.count);
    put_value::<K>(a, m.root, value);
    Done { answer: r, head: h }
}
