// The law of shelves and what it rests on, as theorems that the check asks for. Nothing here is run.
ghost use Rattle.std.specs.Prelude.{◌≡◌, ℕ, ◌+◌};
ghost use Rattle.code.specs.Numbers.{count};
ghost use Rattle.law.specs.Service.{Columns};
ghost use Rattle.law.specs.Law.{LawOfShelves};
ghost use Rattle.law.specs.Promises.{CallsGoOn};
ghost use Rattle.law.specs.Tallies.{ReadsWhole, sources};
ghost use Rattle.law.specs.Pinned.{SomeBlocks, AtHandIsPinned};
ghost use Rattle.law.specs.Possible.{CallsCanBeKept};

// The law; that a call which keeps its promise carries every run on; that a rebuild which reads columns whole reads k of
// them; and that the data at hand, and with them the promises, are what some code can meet in every state of a tray.
pub fn laws_hold()
    ensures law_of_shelves { LawOfShelves }
    ensures calls_go_on { CallsGoOn }
    ensures sources_are_k { (k : ℕ) (out : Columns) (c : ℕ) → ReadsWhole k out c → count (k + 2) (sources k out c) ≡ k }
    ensures some_blocks { SomeBlocks }
    ensures at_hand_is_pinned { AtHandIsPinned }
    ensures calls_can_be_kept { CallsCanBeKept }
{}
