//! What the obligations come to on small files.

ghost use Rattle.std.specs.Prelude.{◌≡◌, pos, true, false, [], ◌∷◌};
ghost use Rattle.dl_term.specs.declared.syntax.Term.{Num, Var, Row, Len};
ghost use Rattle.dl_term.specs.declared.syntax.Lab.TheVariants.{At};
ghost use Rattle.dl_term.specs.declared.syntax.Formula.{Le, Not};
ghost use Rattle.dl_model.specs.Examples.{mail, voting};
ghost use Rattle.dl_model.specs.Words.{me_word};
ghost use Rattle.dl_sequent.specs.declared.duty.Duty.TheVariants.{Start, Guard, AfterSend, Got, Miss, AfterRead, Body, Exit, Enter, Leave, Stable, Frame, Deploy};
ghost use Rattle.dl_inv.specs.Examples.{fact};
ghost use Rattle.dl_triples.specs.Duties.{duties_of};
ghost use Rattle.dl_triples.specs.Obligations.{sequent_of};
ghost use Rattle.dl_triples.specs.Examples.{noted, is_one, where_it_is, bounded, bounded_then, may_send, marked, marked_me, marked_then, choice, taken, enters, returned, other_sends, other_receives};

/// The obligations of the mail file, of the vote and the query, and of a program with each command.
pub fn obligations_compute()
    ensures mail { duties_of (mail (pos 0)) ≡ Start 0 ∷ Guard 0 1 ∷ AfterSend 0 1 ∷ Start 1 ∷ Got 1 1 ∷ Deploy 0 ∷ Deploy 1 ∷ [] }
    ensures voting { duties_of voting ≡ Start 0 ∷ Guard 0 1 ∷ AfterSend 0 1 ∷ Guard 0 2 ∷ AfterSend 0 2 ∷ Deploy 0 ∷ [] }
    ensures noted { duties_of noted ≡ Start 0 ∷ Start 1 ∷ Guard 1 1 ∷ AfterSend 1 1 ∷ Body 1 2 ∷ Exit 1 2 ∷ Stable 1 2 0 0 false ∷ Got 1 3 ∷ Miss 1 3 ∷ Stable 1 3 0 0 false ∷ AfterRead 1 4 ∷ Enter 1 5 ∷ Leave 1 5 ∷ Frame 1 5 0 0 false ∷ Stable 1 0 0 0 true ∷ Deploy 0 ∷ [] }
    ensures start { sequent_of noted (Start 1) [] ≡ where_it_is (fact 9 (is_one (Var 29)) ∷ []) (is_one (Var 29)) }
    ensures guard { sequent_of noted (Guard 1 1) [] ≡ where_it_is (fact 9 (is_one (Var 31)) ∷ []) may_send }
    ensures after_send { sequent_of noted (AfterSend 1 1) [] ≡ where_it_is (fact 9 (is_one (Var 31)) ∷ fact 10 may_send ∷ []) bounded_then }
    ensures body { sequent_of noted (Body 1 2) [] ≡ where_it_is (fact 9 bounded ∷ fact 15 (is_one (Var 31)) ∷ []) bounded }
    ensures exit { sequent_of noted (Exit 1 2) [] ≡ where_it_is (fact 9 bounded ∷ fact 15 (Not (is_one (Var 31))) ∷ []) choice }
    ensures stable { sequent_of noted (Stable 1 2 0 0 false) (40 ∷ 41 ∷ 42 ∷ []) ≡ other_sends bounded bounded_then }
    ensures got { sequent_of noted (Got 1 3) (41 ∷ []) ≡ taken }
    ensures miss { sequent_of noted (Miss 1 3) [] ≡ where_it_is (fact 9 bounded ∷ []) (Le (Num (pos 0)) (Len (At 0))) }
    ensures after_read { sequent_of noted (AfterRead 1 4) [] ≡ where_it_is (fact 9 marked_me ∷ []) (is_one (Row (At 0) 1 (Var me_word) (Var 33))) }
    ensures enter { sequent_of noted (Enter 1 5) [] ≡ where_it_is (fact 9 (is_one (Var 32)) ∷ []) enters }
    ensures leave { sequent_of noted (Leave 1 5) (40 ∷ []) ≡ returned }
    ensures frame { sequent_of noted (Frame 1 5 0 0 false) (40 ∷ 41 ∷ 42 ∷ []) ≡ other_sends marked marked_then }
    ensures post { sequent_of noted (Stable 1 0 0 0 true) (40 ∷ 41 ∷ []) ≡ other_receives }
    ensures deploy { (sequent_of noted (Deploy 0) []).goal ≡ is_one (Num (pos 1)) }
{}
