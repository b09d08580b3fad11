//! Laws about command lines, each the contract of a function with an empty body.

ghost use Rattle.std.specs.Prelude.{◌≡◌, Some, None, [], ◌∷◌, codes};
ghost use Rattle.clap.specs.Words.{fault_of};
ghost use Rattle.clap.specs.declared.error.kind.ErrorKind.TheVariants.{DisplayHelp, DisplayVersion, MissingRequiredArgument, TooManyValues, ValueValidation};
ghost use Rattle.command_line.specs.Given.{all_given, given};
ghost use Rattle.command_line.specs.Serve.{serve};

/// Lines that were worked by hand: for what clap faults them, and what they give.
pub fn worked_lines()
    ensures no_host { fault_of serve [] ≡ MissingRequiredArgument ∷ [] }
    ensures port_0 { fault_of serve (codes "--host" ∷ codes "h:1" ∷ codes "--full" ∷ codes "0" ∷ [])
        ≡ ValueValidation ∷ [] }
    ensures places_33 { fault_of serve
        (codes "--host" ∷ codes "h:1" ∷ codes "--view-places" ∷ codes "33" ∷ [])
        ≡ ValueValidation ∷ [] }
    ensures widest { fault_of serve (codes "--full" ∷ codes "65535" ∷ codes "--full-places=32"
        ∷ codes "--host" ∷ codes "h:1" ∷ []) ≡ [] }
    ensures help { fault_of serve (codes "--help" ∷ []) ≡ DisplayHelp ∷ [] }
    ensures version { fault_of serve (codes "--version" ∷ []) ≡ DisplayVersion ∷ [] }
    ensures log_given { given (codes "--log" ∷ codes "--host" ∷ codes "h:1" ∷ []) (codes "log")
        ≡ Some (codes "true") }
    ensures log_not_given { given (codes "--host" ∷ codes "h:1" ∷ []) (codes "log") ≡ None }
    ensures log_of_no_value { fault_of serve (codes "--host" ∷ codes "h:1" ∷ codes "--log=no" ∷ [])
        ≡ TooManyValues ∷ [] }
    ensures from_given { given
        (codes "--from" ∷ codes "01:30:00" ∷ codes "--host" ∷ codes "file:a" ∷ []) (codes "from")
        ≡ Some (codes "01:30:00") }
    ensures speed_given { given (codes "--host" ∷ codes "file:a" ∷ codes "--speed=0.5" ∷ [])
        (codes "speed") ≡ Some (codes "0.5") }
    ensures speed_not_given { given (codes "--host" ∷ codes "h:1" ∷ []) (codes "speed") ≡ None }
    ensures again_0 { fault_of serve
        (codes "--host" ∷ codes "h:1" ∷ codes "--again" ∷ codes "0" ∷ []) ≡ ValueValidation ∷ [] }
    ensures again_3601 { fault_of serve
        (codes "--host" ∷ codes "h:1" ∷ codes "--again" ∷ codes "3601" ∷ [])
        ≡ ValueValidation ∷ [] }
    ensures stalled_9 { fault_of serve
        (codes "--host" ∷ codes "h:1" ∷ codes "--stalled" ∷ codes "9" ∷ []) ≡ ValueValidation ∷ [] }
    ensures stalled_601 { fault_of serve
        (codes "--host" ∷ codes "h:1" ∷ codes "--stalled" ∷ codes "601" ∷ [])
        ≡ ValueValidation ∷ [] }
    ensures view_only_given { given (codes "--view-only" ∷ codes "--host" ∷ codes "h:1" ∷ [])
        (codes "view-only") ≡ Some (codes "true") }
    ensures plain_runs_given { given (codes "--plain-runs" ∷ codes "--host" ∷ codes "h:1" ∷ [])
        (codes "plain-runs") ≡ Some (codes "true") }
    ensures full_bind_given { given
        (codes "--host" ∷ codes "h:1" ∷ codes "--full-bind=127.0.0.1" ∷ []) (codes "full-bind")
        ≡ Some (codes "127.0.0.1") }
    ensures metrics_given { given
        (codes "--metrics" ∷ codes "127.0.0.1:9100" ∷ codes "--host" ∷ codes "h:1" ∷ [])
        (codes "metrics") ≡ Some (codes "127.0.0.1:9100") }
    ensures proxy_given { given
        (codes "--host" ∷ codes "h:1" ∷ codes "--proxy-from" ∷ codes "10.0.0.1" ∷ [])
        (codes "proxy-from") ≡ Some (codes "10.0.0.1") }
    ensures proxy_not_given { given (codes "--host" ∷ codes "h:1" ∷ []) (codes "proxy-from")
        ≡ None }
    ensures password_given { given
        (codes "--host-password-file=/run/p" ∷ codes "--host" ∷ codes "h:1" ∷ [])
        (codes "host-password-file") ≡ Some (codes "/run/p") }
    ensures password_not_given { given
        (codes "--host" ∷ codes "h:1" ∷ []) (codes "host-password-file") ≡ None }
    ensures web_port_0 { fault_of serve
        (codes "--host" ∷ codes "h:1" ∷ codes "--web-view" ∷ codes "0" ∷ [])
        ≡ ValueValidation ∷ [] }
    ensures web_port_not_given { given (codes "--host" ∷ codes "h:1" ∷ []) (codes "web-full")
        ≡ None }
    ensures origins_in_order { all_given (codes "--web-origin" ∷ codes "https://b"
        ∷ codes "--host" ∷ codes "h:1" ∷ codes "--web-origin=https://a" ∷ []) (codes "web-origin")
        ≡ codes "https://b" ∷ codes "https://a" ∷ [] }
    ensures next_in_order { all_given
        (codes "--host" ∷ codes "h:1" ∷ codes "b:2" ∷ codes "a:1" ∷ codes "--log" ∷ [])
        (codes "next") ≡ codes "b:2" ∷ codes "a:1" ∷ [] }
    ensures next_of_eight { fault_of serve (codes "--host" ∷ codes "h" ∷ codes "1" ∷ codes "2"
        ∷ codes "3" ∷ codes "4" ∷ codes "5" ∷ codes "6" ∷ codes "7" ∷ codes "8" ∷ []) ≡ [] }
    ensures next_of_nine { fault_of serve (codes "--host" ∷ codes "h" ∷ codes "1" ∷ codes "2"
        ∷ codes "3" ∷ codes "4" ∷ codes "5" ∷ codes "6" ∷ codes "7" ∷ codes "8" ∷ codes "9" ∷ [])
        ≡ TooManyValues ∷ [] }
    ensures full_given { given (codes "--full" ∷ codes "65535" ∷ codes "--full-places=32"
        ∷ codes "--host" ∷ codes "h:1" ∷ []) (codes "full") ≡ Some (codes "65535") }
{}
