// Chains of waits, and the priorities lent along them: a task's loan goes to the mutex it waits on, that mutex passes it to its holder, and so on.
// Who waits on which object and who holds it are columns of numbers, 16 for none: so the soundness test fills them for sixteen rows at once. They are lent from step to
// step, and nothing is copied.
#![tactic(auto)]

ghost use Rattle.std.specs.Prelude.{suc, ◌<◌, min, ◌≡◌, ◌&&◌, ltb};
ghost use Rattle.chains.specs.Chains.{within, ends};
ghost use Rattle.chains.specs.Columns.{says, next_by, raised, lent, passed, levels_to, ended_to};

// The loans gone their way: the level of each task, and whether every chain ended. A circle does not end, and its tasks have levels all the same.
#[derive(Clone, Copy, PartialEq, Eq, Debug)]
pub struct AllLent {
    pub levels: [u8; 16],
    pub ended: bool,
}

// The level of i becomes at least p.
#[tactic(auto, unfolding(crate::specs::Columns::raised))]
fn raise(levels: &mut [u8; 16], i: usize, p: u8)
    requires { i < 16 }
    ensures { levels.new ≡ raised i p levels.old }
{
    levels[i] = levels[i].max(p);
}

// The task t gets the loan p, and hands it to the mutex that it waits on. Answers whether the chain ends while tasks are left.
#[cycle(lend_pass)]
#[tactic(auto, using(crate::proofs::Steps::lent_on, crate::proofs::Steps::lent_past, crate::proofs::Steps::ends_on, crate::proofs::Steps::ends_past))]
fn lend(onto: &[u8; 16], by: &[u8; 16], levels: &mut [u8; 16], t: u8, p: u8, left: u8) -> bool
    ensures { (levels.new ≡ lent onto.now by.now left t p levels.old)
        × (result ≡ ends (next_by onto.now by.now) (suc left) t) }
{
    let i = usize::from(t);
    if 16 <= i {
        return true;
    }
    raise(levels, i, p);
    pass(onto, by, levels, onto[i], p, left)
}

// The mutex o passes the loan to its holder, while tasks are left: in a circle too the loan ends.
#[cycle(lend_pass)]
#[tactic(auto, using(crate::proofs::Steps::passed_on, crate::proofs::Steps::passed_none, crate::proofs::Steps::passed_past, crate::proofs::Steps::passes_on, crate::proofs::Steps::passes_none, crate::proofs::Steps::passes_past))]
fn pass(onto: &[u8; 16], by: &[u8; 16], levels: &mut [u8; 16], o: u8, p: u8, left: u8) -> bool
    ensures { (levels.new ≡ passed onto.now by.now left o p levels.old)
        × (result ≡ ends (next_by onto.now by.now) left (says by.now o)) }
{
    let i = usize::from(o);
    if 16 <= i {
        return true;
    }
    let h = by[i];
    if 0 < left {
        lend(onto, by, levels, h, p, left - 1)
    } else {
        16 <= h
    }
}

// The level of each task: the largest own priority among its own and those of the first n that wait for it along a chain.
#[tactic(auto, using(lists::proofs::Turns::up_to_none, lists::proofs::Turns::up_to_more, lists::proofs::Turns::all_below_none, lists::proofs::Turns::all_below_more))]
pub fn levels(own: [u8; 16], onto: [u8; 16], by: [u8; 16], n: usize) -> AllLent
    ensures { (result.levels ≡ levels_to own onto by (min n 16)) × (result.ended ≡ ended_to onto by (min n 16)) }
{
    let mut levels = own;
    let mut ended = true;
    for i in 0..n.min(16) {
        ended &= pass(&onto, &by, &mut levels, onto[i], own[i], 16);
    }
    AllLent { levels, ended }
}

// Whether the chain from the task h leads to u: a loan to h would come there.
#[tactic(auto, using(crate::proofs::Raised::marks_at))]
pub fn reaches(onto: [u8; 16], by: [u8; 16], h: u8, u: usize) -> bool
    ensures { result ≡ (ltb u 16 && within (next_by onto by) 16 h u) }
{
    let mut marks = [0u8; 16];
    lend(&onto, &by, &mut marks, h, 1, 16);
    u < 16 && marks[u] == 1
}
