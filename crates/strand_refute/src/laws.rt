ghost use Rattle.std.specs.Prelude.{◌≡◌, ◌≤◌, List, Ok, length};
ghost use Rattle.strand_inputs.specs.declared.mode.Mode.{Mode};
ghost use Rattle.strand_events.specs.declared.event.Event.{Event};
ghost use Rattle.strand_judge.specs.Judged.{Crash};
ghost use Rattle.strand_refute.specs.CertificateSeen.{CertificateSeen};
ghost use Rattle.strand_refute.specs.Accepted.{IsAccepted};
ghost use Rattle.strand_refute.specs.Checked.{NoneIsJudged};
ghost use Rattle.strand_refute.specs.Fits.{CertificateFits};
ghost use Rattle.strand_refute.specs.Grammar.{certificate_of, certificate_text};
ghost use Rattle.strand_refute.specs.declared.limits.TheConstants.{MOST_CERTIFICATE_BYTES};

/// Where a certificate is accepted no set is judged, for every trace, mode and crash image.
pub fn accepted_certificates_refute()
    ensures { (mode : Mode) (t : List Event) (crash : Crash) (c : CertificateSeen)
        → IsAccepted mode t crash c → NoneIsJudged mode t crash }
{}

/// The printed form of a certificate of at most 200,001 lines is read back to it (`again`), and has no more bytes than
/// the file may have (`short`).
pub fn printed_certificates_are_read_again()
    ensures again { (c : CertificateSeen) → CertificateFits c
        → certificate_of (certificate_text c) ≡ Ok c }
    ensures short { (c : CertificateSeen) → CertificateFits c
        → length (certificate_text c) ≤ MOST_CERTIFICATE_BYTES }
{}
