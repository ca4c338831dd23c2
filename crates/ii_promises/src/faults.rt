// The numbers of faults.
ghost use Rattle.std.specs.Prelude.{◌≡◌};
ghost use Rattle.ii_io.specs.declared.faults.LeafKind.{LeafKind};
ghost use Rattle.ii_io.specs.declared.faults.LimitName.{LimitName};
ghost use Rattle.ii_io.specs.declared.faults.Part.{Part};

use ii_ram::Fault;

/// Each fault has a number from 1 to 8.
pub fn faults_have_numbers(fault: Fault) -> u8
    ensures memory { fault ≡ Fault.OutOfMemory → result ≡ 1 }
    ensures write { fault ≡ Fault.Write → result ≡ 2 }
    ensures closed { fault ≡ Fault.SerializerClosed → result ≡ 3 }
    ensures failed { fault ≡ Fault.IndexerFailed → result ≡ 4 }

    // Faults of what is indexed, of a limit, and of bytes.
    ensures leaf { (kind : LeafKind) → fault ≡ Fault.UnsupportedLeaf kind → result ≡ 5 }
    ensures decreasing { fault ≡ Fault.DecreasingPosition → result ≡ 6 }
    ensures limit { (name : LimitName) → fault ≡ Fault.Limit name → result ≡ 7 }
    ensures damaged { (part : Part) → fault ≡ Fault.Damaged part → result ≡ 8 }
{
    fault.number()
}
