// The pair: any two books, side by side.
ghost use Rattle.std.specs.Prelude.{◌≡◌};
ghost use Rattle.books.specs.Pair.{Both, both, pair_answer, pair_listed, pair_next, pair_valid};
ghost use Rattle.books.specs.Sides.{pair_independent};
ghost use Rattle.std.proofs.Common.{rules};

use book::Book;

// A question to one of the two. No `Result`, since neither side is an error; a type beside the answer's, so that neither
// is taken for the other.
#[derive(Clone, Copy, Drop)]
pub enum PairQuestion<Q, R> {
    First(Q),
    Second(R),
}

// The answer of the one that was asked.
#[derive(Clone, Copy, PartialEq, Eq, Debug, Drop)]
pub enum PairAnswer<X, Y> {
    First(X),
    Second(Y),
}

#[derive(Drop)]
pub struct Pair<A, B> {
    first: A,
    second: B,
}

impl<A: Book, B: Book> Pair<A, B> {
    // Two books, each at its opening.
    pub fn new(mut first: A, mut second: B) -> Pair<A, B>
        ensures opening { both (A.opening result.first) (B.opening result.second) ≡ both (A.opening first) (B.opening second) }
        ensures kept { both (A.kept result.first) (B.kept result.second) ≡ both (A.opening first) (B.opening second) }
        ensures current { both (A.current result.first) (B.current result.second) ≡ both (A.opening first) (B.opening second) }
    {
        first.reset();
        second.reset();
        Pair { first, second }
    }
}

impl<A: Book, B: Book> Book for Pair<A, B> {
    type Question = PairQuestion<A::Question, B::Question>;

    type Answer = PairAnswer<A::Answer, B::Answer>;

    ghost State = { Both A.State B.State };

    ghost opening = { λ p. both (A.opening p.first) (B.opening p.second) };

    ghost kept = { λ p. both (A.kept p.first) (B.kept p.second) };

    ghost current = { λ p. both (A.current p.first) (B.current p.second) };

    ghost listed = { pair_listed A.listed B.listed };

    ghost valid = { pair_valid A.listed A.valid B.valid };

    ghost next = { pair_next A.listed A.next B.next };

    ghost answer = { pair_answer A.answer B.answer };

    ghost kinds = { Prim.search rules };

    // of validity and next state alone, as the book's law
    ghost independence = { λ p.
        pair_independent A.listed A.valid A.next B.valid B.next
        (both (A.opening p.first) (B.opening p.second))
        (A.independence p.first)
        (B.independence p.second) };

    fn lists(kind: u8) -> bool {
        A::lists(kind) || B::lists(kind)
    }

    fn apply(&mut self, account: u8, line: &[u8; 16]) -> bool {
        let [kind, ..] = *line;
        if A::lists(kind) {
            self.first.apply(account, line)
        } else {
            self.second.apply(account, line)
        }
    }

    fn keep(&mut self) {
        self.first.keep();
        self.second.keep();
    }

    fn back(&mut self) {
        self.first.back();
        self.second.back();
    }

    fn reset(&mut self) {
        self.first.reset();
        self.second.reset();
    }

    fn ask(
        &self,
        question: PairQuestion<A::Question, B::Question>,
    ) -> PairAnswer<A::Answer, B::Answer> {
        match question {
            PairQuestion::First(question) => PairAnswer::First(self.first.ask(question)),
            PairQuestion::Second(question) => PairAnswer::Second(self.second.ask(question)),
        }
    }
}
