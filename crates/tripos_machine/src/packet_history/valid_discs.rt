// Calls on a disc.
ghost use Rattle.std.specs.Prelude.{ℕ, Bool, List};
ghost use Rattle.ram_disc.specs.Disc.{Disc, IsDisc};
ghost use Rattle.ram_disc.specs.DiscCalls.{after_append, after_close, after_delete, after_open_read, after_open_write, after_read_on, after_rename};
ghost use Rattle.ram_disc.specs.Name.{IsName};

/// Whatever call is made on a valid disc, refused or not, it leaves a valid disc. A file that is made or renamed gets a lawful name.
pub fn call_law()
    ensures open_read { (d : Disc) (name : List ℕ) (shell : Bool) → IsDisc d
        → IsDisc (after_open_read d name shell).disc }
    ensures open_write { (d : Disc) (name : List ℕ) → IsDisc d → IsName name
        → IsDisc (after_open_write d name).disc }
    ensures read { (d : Disc) (k count : ℕ) → IsDisc d → IsDisc (after_read_on d k count).disc }
    ensures append { (d : Disc) (k : ℕ) (bytes : List ℕ) → IsDisc d
        → IsDisc (after_append d k bytes).disc }
    ensures close { (d : Disc) (k : ℕ) → IsDisc d → IsDisc (after_close d k).disc }
    ensures delete { (d : Disc) (name : List ℕ) → IsDisc d → IsDisc (after_delete d name).disc }
    ensures rename { (d : Disc) (from to : List ℕ) → IsDisc d → IsName to
        → IsDisc (after_rename d from to).disc }
{}
