//! The clauses of a right report, in words.

use report_rules::Clause;

/// What a clause asks.
pub(crate) fn clause_words(clause: Clause) -> &'static str {
    match clause {
        Clause::I =>
            "Clause i, replies: the reply lines are those of the script's requests, in its order, none missing; \
            the home of a stamp is its request's gatekeeper; no two stamps have one id (home, epoch and the home's own \
            count), and those of one home rise with it; in each session the begun requests are its first ones, and \
            each has a stamp after that of the one before.",
        Clause::Ii =>
            "Clause ii, listing: the order line lists each committed transaction and each finished program \
            once, and nothing else.",
        Clause::Iii =>
            "Clause iii, order: no request of the order line precedes itself or one that is listed before it; \
            the requests of a session are listed in the script's order. A request precedes another if a chain of \
            stamps and `settled` pairs leads from it to that one.",
        Clause::Iv =>
            "Clause iv, replay: the requests of the order line, done one after another on one graph that is \
            empty at first, give exactly the printed answers, and none is refused.",
        Clause::V =>
            "Clause v, pairs: of a `settled V EARLIER LATER` the two stamps are unordered; EARLIER is a committed \
            transaction that names V; LATER is another one, or a begun program that, if it is finished, reads V at its \
            place in the order.",
        Clause::Vi =>
            "Clause vi, conflicts: of a `conflict V NEWER` NEWER is a committed transaction of another session; \
            both name V; and the transaction in conflict precedes NEWER.",
        Clause::Vii =>
            "Clause vii, refusals: of a `refused K REASON at M`, after the commits 1 to M, done in the order of \
            their numbers, operation K is the first of the transaction that is refused, and for REASON; M is not above \
            the number of commits, at least the number of each commit of an earlier request of its session, and below \
            that of each later one.",
        Clause::Viii =>
            "Clause viii, numbers: the commits are numbered from 1 up to how many there are, and no number is \
            there twice.",
    }
}
