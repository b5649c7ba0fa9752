ghost use Rattle.std.specs.Prelude.{◌≡◌, ◌≢◌, ◌<◌, ℕ, None, Some};
ghost use Rattle.std.specs.FinMap as finite;
ghost use Rattle.clone_base.specs.declared.limits.TheConstants.{TRANSACTION_LIMIT};
ghost use Rattle.clone_plain.specs.Causes.{drop_cause, least_holder};
ghost use Rattle.clone_plain.specs.Donor.{Donor, Locks};
ghost use Rattle.clone_plain.specs.Effects.{dropped};
ghost use Rattle.clone_plain.specs.declared.refusal.Cause.TheVariants.{NoSuchTable};
ghost use Rattle.clone_plain.specs.Locked.{IsLocked, value_of};

/// A table that is dropped, where there is no cause against it, shows no row any more, and a second
/// drop finds no such table. The rows of the other tables show what they did, and each lock stays
/// with its open transaction.
pub fn drop_laws()
    ensures gone { (d : Donor) (table key : ℕ) → IsLocked d → drop_cause d table ≡ None
        → value_of (dropped table d) table key ≡ None }
    ensures again { (d : Donor) (table : ℕ)
        → drop_cause (dropped table d) table ≡ Some NoSuchTable }
    ensures others { (d : Donor) (table other key : ℕ) → other ≢ table
        → value_of (dropped table d) other key ≡ value_of d other key }
    ensures locked { (d : Donor) (table : ℕ) → IsLocked d → IsLocked (dropped table d) }
{}

/// The transaction for which a drop is refused holds the lock of a row of the table, and no lesser
/// one does. Where there is none, no transaction holds such a lock.
pub fn holder_laws()
    ensures held { (locks : Locks) (table trx : ℕ) → least_holder locks table ≡ Some trx
        → (key : ℕ) × (finite.get locks (table, key) ≡ Some trx) }
    ensures least { (locks : Locks) (table trx : ℕ) → least_holder locks table ≡ Some trx
        → (key lesser : ℕ) → lesser < trx → finite.get locks (table, key) ≢ Some lesser }
    ensures none { (locks : Locks) (table : ℕ) → least_holder locks table ≡ None
        → (key trx : ℕ) → trx < TRANSACTION_LIMIT → finite.get locks (table, key) ≢ Some trx }
{}
