// What the words of command lines mean: usbguard(1).
ghost use Rattle.std.specs.Prelude.{◌≡◌, [], ◌∷◌, Some, None, codes, false, true};
ghost use Rattle.ug_types.specs.declared.rule.After.TheVariants as after;
ghost use Rattle.ug_types.specs.declared.verdict.Target.TheVariants as target;
ghost use Rattle.ug_proto.specs.declared.request.Request.TheVariants as request;
ghost use Rattle.ug_acl.specs.Lists.{nothing_listed};
ghost use Rattle.ug_arguments.specs.CommandLines.{adds, asking_command, joe, listen_alone, listing, root_socket, wanted_rows};
ghost use Rattle.ug_arguments.specs.Commands.{command_in, settings_path};
ghost use Rattle.ug_arguments.specs.declared.command.Command.TheVariants.{Ask, ChangeParameter, CheckRules, GeneratePolicy, LintRules, ListChosen, ListLabelled, ListRuleDevices, MakeScript, ReadDescriptor, Replay, Summarize, Watch, WatchWaiting};

/// Each command that reads texts.
pub fn command_lines_law()
    ensures replay { command_in (codes "replay" ∷ [])
        ≡ Some Replay }
    ensures summary { command_in (codes "replay" ∷ codes "--summary" ∷ [])
        ≡ Some Summarize }
    ensures make_script { command_in (codes "make-script" ∷ codes "3" ∷ codes "5" ∷ [])
        ≡ Some (MakeScript 3 5) }
    ensures read_descriptor { command_in (codes "read-descriptor" ∷ [])
        ≡ Some ReadDescriptor }
    ensures check_rules { command_in (codes "check-rules" ∷ [])
        ≡ Some CheckRules }
    ensures lint_rules { command_in (codes "lint-rules" ∷ [])
        ≡ Some (LintRules false) }
    ensures prune { command_in (codes "lint-rules" ∷ codes "--prune" ∷ [])
        ≡ Some (LintRules true) }
    ensures generate_policy { command_in (codes "generate-policy" ∷ [])
        ≡ Some GeneratePolicy }
{}

/// What each option of `add-user` lists.
pub fn add_user_lines_law()
    ensures add_user { command_in (codes "add-user" ∷ codes "joe" ∷ [])
        ≡ adds joe nothing_listed nothing_listed nothing_listed nothing_listed }
    ensures devices { command_in (codes "add-user" ∷ codes "joe" ∷ codes "--devices" ∷ codes "list"
        ∷ [])
        ≡ adds joe listing nothing_listed nothing_listed nothing_listed }
    ensures policy { command_in (codes "add-user" ∷ codes "joe" ∷ codes "--policy" ∷ codes "list"
        ∷ [])
        ≡ adds joe nothing_listed listing nothing_listed nothing_listed }
    ensures exceptions { command_in (codes "add-user" ∷ codes "joe" ∷ codes "--exceptions"
        ∷ codes "listen" ∷ [])
        ≡ adds joe nothing_listed nothing_listed listen_alone nothing_listed }
    ensures parameters { command_in (codes "add-user" ∷ codes "joe" ∷ codes "--parameters"
        ∷ codes "list" ∷ [])
        ≡ adds joe nothing_listed nothing_listed nothing_listed listing }
{}

/// Each command that asks the daemon.
pub fn asking_lines_law()
    ensures get_parameter { command_in (codes "get-parameter" ∷ codes "a" ∷ [])
        ≡ asking_command (request.GetParameter (codes "a")) }
    ensures set_parameter { command_in (codes "set-parameter" ∷ codes "a" ∷ codes "b" ∷ [])
        ≡ asking_command (request.SetParameter (codes "a") (codes "b")) }
    ensures list_devices { command_in (codes "list-devices" ∷ [])
        ≡ asking_command request.ListDevices }
    ensures allow_device { command_in (codes "allow-device" ∷ codes "7" ∷ [])
        ≡ asking_command (request.Device 7 target.Allow false) }
    ensures block_device { command_in (codes "block-device" ∷ codes "7" ∷ [])
        ≡ asking_command (request.Device 7 target.Block false) }
    ensures reject_device { command_in (codes "reject-device" ∷ codes "7" ∷ [])
        ≡ asking_command (request.Device 7 target.Reject false) }
    ensures permanent { command_in (codes "allow-device" ∷ codes "7" ∷ codes "-p" ∷ [])
        ≡ asking_command (request.Device 7 target.Allow true) }
    ensures list_rules { command_in (codes "list-rules" ∷ [])
        ≡ asking_command request.ListRules }
    ensures append_rule { command_in (codes "append-rule" ∷ codes "a b" ∷ [])
        ≡ asking_command (request.AppendRule after.End true (codes "a b")) }
    ensures temporary { command_in (codes "append-rule" ∷ codes "a b" ∷ codes "-t" ∷ [])
        ≡ asking_command (request.AppendRule after.End false (codes "a b")) }
    ensures behind { command_in (codes "append-rule" ∷ codes "a b" ∷ codes "-a" ∷ codes "7" ∷ [])
        ≡ asking_command (request.AppendRule (after.Rule 7) true (codes "a b")) }
    ensures front { command_in (codes "append-rule" ∷ codes "a b" ∷ codes "-a" ∷ codes "0" ∷ [])
        ≡ asking_command (request.AppendRule after.Front true (codes "a b")) }
    ensures remove_rule { command_in (codes "remove-rule" ∷ codes "7" ∷ [])
        ≡ asking_command (request.RemoveRule 7) }
    ensures socket { command_in (codes "list-rules" ∷ codes "--socket" ∷ codes "/run/a" ∷ [])
        ≡ Some (Ask (codes "/run/a") request.ListRules) }
    ensures watch { command_in (codes "watch" ∷ [])
        ≡ Some (Watch root_socket 1000000) }
    ensures most { command_in (codes "watch" ∷ codes "-n" ∷ codes "7" ∷ [])
        ≡ Some (Watch root_socket 7) }
{}

/// Which devices `list-devices` is asked for.
pub fn list_lines_law()
    ensures allowed { command_in (codes "list-devices" ∷ codes "-a" ∷ [])
        ≡ Some (ListChosen root_socket (wanted_rows true false)) }
    ensures allowed_long { command_in (codes "list-devices" ∷ codes "--allowed" ∷ [])
        ≡ Some (ListChosen root_socket (wanted_rows true false)) }
    ensures blocked { command_in (codes "list-devices" ∷ codes "-b" ∷ [])
        ≡ Some (ListChosen root_socket (wanted_rows false true)) }
    ensures blocked_long { command_in (codes "list-devices" ∷ codes "--blocked" ∷ [])
        ≡ Some (ListChosen root_socket (wanted_rows false true)) }
{}

/// The long options that stand for letters.
pub fn long_options_law()
    ensures permanent { command_in (codes "allow-device" ∷ codes "7" ∷ codes "--permanent" ∷ [])
        ≡ asking_command (request.Device 7 target.Allow true) }
    ensures temporary { command_in (codes "append-rule" ∷ codes "a b" ∷ codes "--temporary" ∷ [])
        ≡ asking_command (request.AppendRule after.End false (codes "a b")) }
    ensures after { command_in (codes "append-rule" ∷ codes "a b" ∷ codes "--after" ∷ codes "7"
        ∷ [])
        ≡ asking_command (request.AppendRule (after.Rule 7) true (codes "a b")) }
    ensures most { command_in (codes "watch" ∷ codes "--most" ∷ codes "7" ∷ [])
        ≡ Some (Watch root_socket 7) }
{}

/// What `list-rules`, `set-parameter` and `watch` are asked for beside.
pub fn flag_lines_law()
    ensures label { command_in (codes "list-rules" ∷ codes "-l" ∷ codes "a" ∷ [])
        ≡ Some (ListLabelled root_socket (codes "a")) }
    ensures label_long { command_in (codes "list-rules" ∷ codes "--label" ∷ codes "a" ∷ [])
        ≡ Some (ListLabelled root_socket (codes "a")) }
    ensures devices { command_in (codes "list-rules" ∷ codes "-d" ∷ [])
        ≡ Some (ListRuleDevices root_socket None) }
    ensures devices_long { command_in (codes "list-rules" ∷ codes "--show-devices" ∷ [])
        ≡ Some (ListRuleDevices root_socket None) }
    ensures both { command_in (codes "list-rules" ∷ codes "-d" ∷ codes "-l" ∷ codes "a" ∷ [])
        ≡ Some (ListRuleDevices root_socket (Some (codes "a"))) }
    ensures verbose { command_in (codes "set-parameter" ∷ codes "a" ∷ codes "b" ∷ codes "-v" ∷ [])
        ≡ Some (ChangeParameter root_socket (codes "a") (codes "b")) }
    ensures verbose_long { command_in (codes "set-parameter" ∷ codes "--verbose" ∷ codes "a"
        ∷ codes "b" ∷ [])
        ≡ Some (ChangeParameter root_socket (codes "a") (codes "b")) }
    ensures wait { command_in (codes "watch" ∷ codes "-w" ∷ [])
        ≡ Some (WatchWaiting root_socket 1000000 false) }
    ensures wait_long { command_in (codes "watch" ∷ codes "--wait" ∷ codes "-n" ∷ codes "7" ∷ [])
        ≡ Some (WatchWaiting root_socket 7 false) }
    ensures once { command_in (codes "watch" ∷ codes "-w" ∷ codes "-o" ∷ [])
        ≡ Some (WatchWaiting root_socket 1000000 true) }
    ensures once_long { command_in (codes "watch" ∷ codes "-w" ∷ codes "--once" ∷ [])
        ≡ Some (WatchWaiting root_socket 1000000 true) }
    ensures once_alone { command_in (codes "watch" ∷ codes "-o" ∷ [])
        ≡ Some (Watch root_socket 1000000) }
{}

/// Where a daemon's settings are.
pub fn daemon_lines_law()
    ensures usual { settings_path []
        ≡ Some (codes "/etc/usbguard/usbguard-daemon.conf") }
    ensures conf { settings_path (codes "--conf" ∷ codes "/etc/a" ∷ [])
        ≡ Some (codes "/etc/a") }
{}
