ghost use Rattle.std.specs.Prelude.{◌≡◌, None};
ghost use Rattle.whole.specs.Whole.{first_difference};

use lines::each::Lines;
use lines::line::LONGEST;
use lines::source::LineSource;

// The number of the first line that two sources do not both have alike; none where their lists are equal.
pub fn first_difference<A: LineSource, B: LineSource>(a: &A, b: &B) -> Option<usize>
    ensures value { result ≡ first_difference (A.LineSource.lines a.now) (B.LineSource.lines b.now) }
    ensures equal { result ≡ None → A.LineSource.lines a.now ≡ B.LineSource.lines b.now }
    ensures none { A.LineSource.lines a.now ≡ B.LineSource.lines b.now → result ≡ None }
{
    let mut left = Lines::of(a);
    let mut right = Lines::of(b);
    let mut left_room = [0; LONGEST];
    let mut right_room = [0; LONGEST];
    let mut n = 1;
    while let Some(x) = left.next_in(&mut left_room) {
        let Some(y) = right.next_in(&mut right_room) else {
            return Some(n);
        };
        if x != y {
            return Some(n);
        }
        n += 1;
    }
    match right.next_in(&mut right_room) {
        Some(_) => Some(n),
        None => None,
    }
}
