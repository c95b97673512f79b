// One visit of a cell in marking by link reversal, by its cases.
#![tactic(auto)]

ghost use Rattle.std.specs.Prelude.{◌≡◌, ◌+◌, ◌^◌, ◌<◌, ◌≤◌, false, length};
ghost use Rattle.pool.specs.Layout.{register_count, pool_length, state, left};
ghost use Rattle.pool.specs.States.{point_state, is_marked};
ghost use Rattle.visit.specs.Visit.{unmarked, visit_of, Visitable};
ghost use Rattle.visit.specs.Cases.{set_links, case_of, act_of};

use pool::Pool;

// The cell in hand, its predecessor, and how many visits were made.
#[derive(Clone, Copy)]
pub struct Marker {
    pub cell: u32,
    pub previous: u32,
    pub visits: u32,
}

// Is the link a cell that no visit was made to? Nil counts as marked.
pub fn is_unmarked(words: &[u32], x: u32) -> bool
    requires { pool_length register_count x ≤ length words.now }
    ensures { result ≡ unmarked register_count words.now x }
{
    x != 0 && pool::is_used(pool::read_cell(words, x, Pool::STATE))
}

// What a visit does: of a pair the five cases of Gries 2006, in their order there, and the one of a point. m[p] is the mark of the cell p in hand, to which 1
// was just added.
#[derive(Clone, Copy)]
pub enum VisitCase {
    // 1. m[p] = 3.
    Retreat,
    // 2. m[p] = 1, and the next link, the left successor, is unmarked.
    FollowLeft,
    // 3. m[p] = 1, and the left successor is marked or nil.
    PassLeft,
    // 4. m[p] = 2, and the next link, the right successor, is unmarked.
    FollowRight,
    // 5. m[p] = 2, and the right successor is marked or nil.
    PassRight,
    // p is a point.
    Point,
}

// The case of the cell p, by its mark, to which 1 was added, and by the state of the next link. At the third visit that is the backpointer, of which nothing
// is read: it may be the virtual root. Nor is anything read of a point's words.
fn choose(words: &[u32], p: u32) -> VisitCase
    requires pair { (0 < p) × (pool_length register_count p ≤ length words.now) × (state register_count words.now p ≡ point_state → ⊥) }
    requires next_link { is_marked (state register_count words.now p) ≡ false → pool_length register_count (left register_count words.now p) ≤ length words.now }
    ensures { result ≡ case_of register_count words.now p }
{
    let mark = pool::read_cell(words, p, Pool::STATE);
    let next = pool::read_cell(words, p, Pool::LEFT);
    match mark {
        Pool::MARKED_PAIR => VisitCase::Retreat,
        Pool::MARKED_POINT => VisitCase::Point,
        1 if is_unmarked(words, next) => VisitCase::FollowLeft,
        1 => VisitCase::PassLeft,
        _ if is_unmarked(words, next) => VisitCase::FollowRight,
        _ => VisitCase::PassRight,
    }
}

// Writes both links of a cell.
fn set_links(words: &mut [u32], p: u32, left: u32, right: u32)
    requires { (0 < p) × (pool_length register_count p ≤ length words.old) }
    ensures { words.new ≡ set_links register_count words.old p left right }
{
    pool::write_cell(words, p, Pool::LEFT, left);
    pool::write_cell(words, p, Pool::RIGHT, right);
}

impl Marker {
    // One visit of the cell in hand: 1 is added to its mark, and then one of the cases acts.
    pub fn visit(mut self, words: &mut [u32], n: u32) -> Marker
        requires { (Visitable register_count n (self, words.old)) × (pool_length register_count n ≤ length words.old) × (self.visits + 1 < 2 ^ 32) }
        ensures { (result, words.new) ≡ visit_of register_count (self, words.old) }
    {
        let p = self.cell;
        let mark = pool::read_cell(words, p, Pool::STATE) + 1;
        pool::write_cell(words, p, Pool::STATE, mark);
        let case = choose(words, p);
        self.visits += 1;
        self.act(words, case)
    }

    // What each case does to the cell p in hand, to p, and to its predecessor q. In every one of a pair "the values of l[p], r[p], and q have to be changed because
    // 1 was added to m[p]": they hold the left successor L_p, the right one R_p and the backpointer B_p, each moving one place on with every visit.
    fn act(mut self, words: &mut [u32], case: VisitCase) -> Marker
        requires { (0 < self.cell) × (pool_length register_count self.cell ≤ length words.old) }
        ensures { (result, words.new) ≡ act_of register_count case (self, words.old) }
    {
        let p = self.cell;
        let q = self.previous;
        let l = pool::read_cell(words, p, Pool::LEFT);
        let r = pool::read_cell(words, p, Pool::RIGHT);
        match case {
            // 1. "This is the third visit to node p. .. p should be removed from path P, and its backpointer B_p should become the new node p." It
            // stands in l[p].
            VisitCase::Retreat => {
                set_links(words, p, r, q);
                self.cell = l;
                self.previous = p;
                self
            }
            // 2. "This is the first visit to node p, and its left successor L_p is unmarked. L_p should be appended to path p." It stands in l[p].
            VisitCase::FollowLeft => {
                set_links(words, p, r, q);
                self.cell = l;
                self.previous = p;
                self
            }
            // 3. "This is the first visit to node p, and its left successor L_p is either completely marked or is on path P. So, there is nothing to
            // do with p's left successor."
            VisitCase::PassLeft => {
                set_links(words, p, r, q);
                self.previous = l;
                self
            }
            // 4. "This is the second visit to node p, and its right successor R_p is unmarked. R_p should be appended to path p." By now it stands in
            // l[p].
            VisitCase::FollowRight => {
                set_links(words, p, r, q);
                self.cell = l;
                self.previous = p;
                self
            }
            // 5. "This is the second visit to node p, and its right successor R_p is either completely marked or is on path P. So, there is nothing
            // to do with p's right successor."
            VisitCase::PassRight => {
                set_links(words, p, r, q);
                self.previous = l;
                self
            }
            // A point has no link to follow: its only visit marks it, its words stay, and its predecessor is in hand again.
            VisitCase::Point => {
                self.cell = q;
                self.previous = p;
                self
            }
        }
    }
}
