//! The machine of moves: the channel between the two ends as little moves, of which any may come
//! next. It knows no time, no power and no jobs, and carries the bytes of packets along unread.
//! Whatever the two ends do comes to some list of moves, so what holds after every list of moves
//! holds of them. Plain definitions alone.
#![tactic(auto)]
