// What a script's lines are read as.
ghost use Rattle.std.specs.Prelude.{◌≡◌, ◌≤◌, ◌↔◌, ℕ, false, true, List, [], ◌∷◌, Some, codes, decimal, length, neg_ℤ, pos};
ghost use Rattle.ug_types.specs.NodeNames.{IsNodeName};
ghost use Rattle.ug_sysfs.specs.declared.script.IfaceMove.TheVariants.{Add, Remove};
ghost use Rattle.ug_sysfs.specs.declared.script.Move.{Move};
ghost use Rattle.ug_sysfs.specs.declared.script.Move.TheVariants as move;
ghost use Rattle.ug_store.specs.declared.mishap.Mishap.TheVariants as mishap;
ghost use Rattle.ug_types.specs.declared.event.Event.TheVariants.{Hint, Order, Sweep};
ghost use Rattle.ug_steps.specs.declared.step.AccessLine.{AccessLine};
ghost use Rattle.ug_steps.specs.declared.step.SetupLine.TheVariants.{Access};
ghost use Rattle.ug_steps.specs.declared.step.SetupLine.TheVariants as setup;
ghost use Rattle.ug_steps.specs.declared.step.Step.{Step};
ghost use Rattle.ug_steps.specs.declared.step.Step.TheVariants as step;
ghost use Rattle.ug_steps.specs.Grammar.{grant_of, IsAccess, step_of_line};
ghost use Rattle.ug_steps.specs.IfaceLines.{iface_named};
ghost use Rattle.ug_steps.specs.LineGrammar.{AsksFor};
ghost use Rattle.ug_steps.specs.LineExamples.{fails, keyboard_on, off_with_files, on_by_itself, on_disk, schedules};
ghost use Rattle.ug_steps.specs.Words.{moment_word, name_of};

/// Names are read as themselves, each moment up to 250,000,000,000 is read from its decimal text, and nothing else is read.
pub fn words_law()
    ensures names { (text name : List ℕ) → (name_of text ≡ Some name)
        ↔ (IsNodeName text × (length text ≤ 31) × (name ≡ text)) }
    ensures moments { (text : List ℕ) (moment : ℕ) → (moment_word text ≡ Some moment)
        ↔ ((text ≡ decimal moment) × (moment ≤ 250000000000)) }
{}

/// Behind `access ` a user or a group is read with what a line of an access file gives, and nothing else is.
pub fn access_law()
    ensures { (text : List ℕ) (line : AccessLine) → (grant_of text ≡ Some (Access line))
        ↔ IsAccess text line }
{}

/// A line asks for a step exactly where it is a line of that kind.
pub fn lines_law()
    ensures { (line : List ℕ) (asked : Step) → (step_of_line line ≡ Some asked)
        ↔ AsksFor line asked }
{}

/// Lines with words of each kind, and the steps that they ask for.
pub fn line_words_law()
    ensures comment { step_of_line (codes "# plug") ≡ Some step.Skip }
    ensures restart { step_of_line (codes "restart") ≡ Some step.Restart }
    ensures plug { step_of_line (codes "plug 1-1 1 c1 - - -")
        ≡ Some (step.Move (move.Plug (on_by_itself (codes "1-1") (193 ∷ [])))) }
    ensures plug_off { step_of_line (codes "plug 1-1 0 c1 \"a\" \"b\" \"c\"")
        ≡ Some (step.Move (move.Plug (off_with_files (codes "1-1") (193 ∷ [])
        (codes "a\n") (codes "b\n") (codes "c\n")))) }
    ensures unplug { step_of_line (codes "unplug 1-1")
        ≡ Some (step.Move (move.Unplug (codes "1-1"))) }
    ensures iface { step_of_line (codes "iface 1-1 1.0 03:01:01 1")
        ≡ Some (step.Move (move.Iface (Add (keyboard_on (codes "1-1") 1 0)))) }
    ensures uniface { step_of_line (codes "uniface 1-1 1.0")
        ≡ Some (step.Move (move.Iface (Remove (iface_named (codes "1-1") 1 0)))) }

    ensures before { step_of_line (codes "before 7 unplug 1-1")
        ≡ Some (schedules 7 false (move.Unplug (codes "1-1"))) }
    ensures after { step_of_line (codes "after 7 unplug 1-1")
        ≡ Some (schedules 7 true (move.Unplug (codes "1-1"))) }
    ensures uniface_before { step_of_line (codes "before 7 uniface 1-1 1.255")
        ≡ Some (schedules 7 false
        (move.Iface (Remove (iface_named (codes "1-1") 1 255)))) }
    ensures fail { step_of_line (codes "fail 7") ≡ Some (fails 7 false) }
    ensures fail_effect { step_of_line (codes "fail 7 effect") ≡ Some (fails 7 true) }
    ensures disk_fail { step_of_line (codes "disk fail 7")
        ≡ Some (on_disk 7 mishap.NoEffect false) }
    ensures disk_fail_effect { step_of_line (codes "disk fail 7 effect")
        ≡ Some (on_disk 7 mishap.Effect false) }
    ensures stop_old { step_of_line (codes "stop 7 old") ≡ Some (on_disk 7 mishap.NoEffect true) }
    ensures stop_new { step_of_line (codes "stop 7 new") ≡ Some (on_disk 7 mishap.Effect true) }

    ensures sweep { step_of_line (codes "sweep 7")
        ≡ Some (step.Event (Sweep (record { 0 = 7 }))) }
    ensures order { step_of_line (codes "order 7 joe list-rules")
        ≡ Some (step.Event (Order (record { 0 = 7 })
        (record { group = false; name = codes "joe" }) (codes "list-rules"))) }
    ensures hint { step_of_line (codes "hint 7 4a0B")
        ≡ Some (step.Event (Hint (record { 0 = 7 }) (74 ∷ 11 ∷ []))) }
    ensures conf { step_of_line (codes "conf HidePII=true")
        ≡ Some (step.Setup (setup.Conf (codes "HidePII=true"))) }
    ensures ahead { step_of_line (codes "zone +01:30") ≡ Some (step.Setup (setup.Zone (pos 5400))) }
    ensures behind { step_of_line (codes "zone -01:30")
        ≡ Some (step.Setup (setup.Zone (neg_ℤ (pos 5400)))) }
{}
