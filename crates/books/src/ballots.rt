// The ballot book: what each account has voted on each topic.
ghost use Rattle.std.specs.Prelude.{◌≡◌, ◌≤◌, List, IfSome};
ghost use Rattle.books.specs.Ballots.{Paper, ballot_answer, ballot_kinds, ballot_next, ballot_valid, chose, no_votes, vote_in, votes};
ghost use Rattle.book.specs.Law.{after};
ghost use Rattle.books.specs.Votes.{either_order};
ghost use Rattle.std.proofs.Common.{rules};

use book::{Book, LAST_ACCOUNT};

const LAST_TOPIC: u8 = 15;

const LAST_CHOICE: u8 = 3;

// The kind of a vote's line: a byte, as the kinds of all books.
const VOTE: u8 = 2;

// What a vote's line says.
#[derive(Clone, Copy)]
struct Vote {
    topic: u8,
    choice: u8,
}

// How many accounts have voted so?
#[derive(Clone, Copy)]
pub struct BallotQuestion {
    pub topic: u8,
    pub choice: u8,
}

// For each account a paper, with a choice or none for each topic: those kept and the current ones.
// The opening has no votes, so it is not stored. Kept and current are two fields as in the pallet book, of fixed memory.
#[derive(Drop)]
pub struct BallotBook {
    kept: [[Option<u8>; 16]; 64],
    current: [[Option<u8>; 16]; 64],
}

#[tactic(auto, unfolding(crate::specs::Ballots::no_votes))]
fn no_votes() -> [[Option<u8>; 16]; 64]
    ensures { result ≡ no_votes }
{
    [[None; 16]; 64]
}

// Takes a line apart; none where its form is not that of a vote. An Option is enough, as no caller learns why.
fn vote_in(line: &[u8; 16]) -> Option<Vote>
    ensures says { result ≡ vote_in line.now }
    ensures known { IfSome result (λ v. v.topic ≤ 15) }
{
    let [VOTE, topic, choice, 0, 0, 0, 0, 0, 0, 0, 0, 0, 0, 0, 0, 0] = *line else {
        return None;
    };
    if topic > LAST_TOPIC || choice > LAST_CHOICE {
        return None;
    }
    Some(Vote { topic, choice })
}

// Whether a paper has this choice on the topic.
fn has(paper: &[Option<u8>; 16], topic: u8, choice: u8) -> bool
    ensures { result ≡ chose topic choice paper.now }
{
    paper.get(topic as usize).copied().flatten() == Some(choice)
}

fn count(papers: &[[Option<u8>; 16]; 64], topic: u8, choice: u8) -> u8
    ensures { result ≡ votes papers.now topic choice }
{
    let votes = papers.iter().filter(|paper| has(paper, topic, choice));
    votes.count() as u8
}

impl BallotBook {
    // A book with no votes.
    pub fn new() -> BallotBook
        ensures kept { result.kept ≡ no_votes }
        ensures current { result.current ≡ no_votes }
    {
        BallotBook {
            kept: no_votes(),
            current: no_votes(),
        }
    }
}

impl Book for BallotBook {
    type Question = BallotQuestion;

    type Answer = Option<u8>;

    ghost State = { List Paper };

    ghost opening = { λ _. no_votes };

    ghost kept = { λ b. b.kept };

    ghost current = { λ b. b.current };

    ghost listed = { ballot_kinds };

    ghost valid = { ballot_valid };

    ghost next = { ballot_next };

    ghost answer = { ballot_answer };

    ghost kinds = { Prim.search rules };

    // votes of two issuers commute in any state, reached or not
    ghost independence = { λ b before m n reached apart. either_order (after ballot_next no_votes before) m n apart };

    fn lists(kind: u8) -> bool {
        kind == VOTE
    }

    fn apply(&mut self, account: u8, line: &[u8; 16]) -> bool {
        let Some(vote) = vote_in(line) else {
            return false;
        };
        if account > LAST_ACCOUNT {
            return false;
        }
        let earlier = self.current[account as usize][vote.topic as usize];
        if earlier.is_some() {
            return false;
        }
        self.current[account as usize][vote.topic as usize] = Some(vote.choice);
        true
    }

    fn keep(&mut self) {
        self.kept = self.current;
    }

    fn back(&mut self) {
        self.current = self.kept;
    }

    fn reset(&mut self) {
        self.kept = no_votes();
        self.current = no_votes();
    }

    fn ask(&self, question: BallotQuestion) -> Option<u8> {
        if question.topic > LAST_TOPIC || question.choice > LAST_CHOICE {
            return None;
        }
        Some(count(&self.current, question.topic, question.choice))
    }
}
