// A list of global numbers asked at once: the rules are asked once for all of them, and each answer is written as three numbers.
ghost use Rattle.std.specs.Prelude.{◌≡◌, true, [], ◌∷◌, ◌+◌, ◌*◌, ◌≤◌, ltb, length};
ghost use Rattle.std.proofs.lemmas.List.Edits.{sets};
ghost use Rattle.words.specs.Rooms.{written};
ghost use Rattle.lines.specs.Rules.{keeps_rules};
ghost use Rattle.lines.specs.AtOnce.{triple_of, triples_of, at_once, answers_after};

use crate::codes::{ARRIVES, NO_OWNER, UNWIRED};
use crate::{Map, Route};
use words::Refusal;

// How many numbers an answer takes: kind, core vector and number.
const TRIPLE: usize = 3;

// Whether a list of some length has no room for the answers to so many numbers: by a division, so that no product has to fit.
fn lacks_room(length: usize, count: usize) -> bool
    ensures { result ≡ ltb length (3 * count) }
{
    length / TRIPLE < count
}

// Three numbers, from place n of a list on.
#[tactic(auto, using(crate::proofs::AtOnce::three_stores))]
fn put_three(list: &mut [u32], n: usize, kind: u8, vector: u8, number: u32)
    requires { n + 3 ≤ length list.old }
    ensures { list.new ≡ sets list.old n (kind ∷ vector ∷ number ∷ []) }
{
    list[n] = kind as u32;
    list[n + 1] = vector as u32;
    list[n + 2] = number;
}

// The three numbers of an answer, from place n of a list on.
#[tactic(auto, unfolding(crate::specs::AtOnce::triple_of, crate::specs::Answers::in_numbers))]
fn put(list: &mut [u32], n: usize, route: Route)
    requires { n + 3 ≤ length list.old }
    ensures { list.new ≡ sets list.old n (triple_of route) }
{
    match route {
        Route::Arrives(vector, number) => put_three(list, n, ARRIVES, vector, number),
        Route::Unwired => put_three(list, n, UNWIRED, 0, 0),
        Route::NoOwner => put_three(list, n, NO_OWNER, 0, 0),
    }
}

impl Map {
    // The answers to all numbers, of a map that keeps the rules, in a list that has room for them: by place, since of what
    // `chunks_exact_mut` lends a proof knows the length alone.
    fn put_all(&self, numbers: &[u32], answers: &mut [u32])
        requires { (keeps_rules self.now ≡ true) × (3 * length numbers.now ≤ length answers.old) }
        ensures { answers.new ≡ written (triples_of self.now numbers.now) answers.old }
    {
        for (k, number) in numbers.iter().enumerate() {
            put(answers, TRIPLE * k, self.arrival(*number));
        }
    }

    // Where each of some global numbers arrives, three numbers for each from the front of the answers' list on: its kind (0 arrives,
    // 1 unwired, 2 no owner), its core vector and its number, both 0 where it does not arrive. A refusal leaves the list as it was.
    #[tactic(auto, unfolding(crate::specs::AtOnce::at_once, crate::specs::AtOnce::at_once_rules, crate::specs::AtOnce::answers_after, words::specs::Refusals::unless, words::specs::Refusals::first_refusal))]
    pub fn route_each(self, numbers: &[u32], answers: &mut [u32]) -> Result<(), Refusal>
        ensures value { result ≡ at_once self numbers.now answers.old }
        ensures answers_after { answers.new ≡ answers_after self numbers.now answers.old }
    {
        words::rule(!self.keeps_rules(), 61, 0)?;
        words::rule(lacks_room(answers.len(), numbers.len()), 62, 0)?;
        self.put_all(numbers, answers);
        Ok(())
    }
}
