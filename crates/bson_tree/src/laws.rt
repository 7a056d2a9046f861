//! Laws of the definitions.
ghost use Rattle.std.specs.Prelude.{◌≡◌, ◌↔◌, List, Err};
ghost use Rattle.serde_json.specs.Data.{Data};
ghost use Rattle.bson_scalar.specs.Faults.{Fault};
ghost use Rattle.bson_scalar.specs.declared.form.Doubles.{Doubles};
ghost use Rattle.bson_model.specs.Fault.{MeansNothing, MeansNothingIn};
ghost use Rattle.bson_model.specs.Reading.{reads_tree, reads_tree_in};
ghost use Rattle.bson_tree.specs.Place.{FaultAt, FaultAtIn, PathSegment};

/// Proves that the fault at the end of a path is the one that reading the tree returns.
pub fn placed_fault_is_read()
    ensures { (tree_fault : Fault) (json_tree : Data) (path : List PathSegment) → FaultAt tree_fault json_tree path
        → reads_tree json_tree ≡ Err tree_fault }
{}

/// Proves that a tree with a fault means nothing, and has one fault and one path to it.
pub fn one_place()
    ensures has_no_meaning { (tree_fault : Fault) (json_tree : Data) (path : List PathSegment)
        → FaultAt tree_fault json_tree path → MeansNothing json_tree }
    ensures fault { (tree_fault other_fault : Fault) (json_tree : Data) (path other_path : List PathSegment)
        → FaultAt tree_fault json_tree path → FaultAt other_fault json_tree other_path → tree_fault ≡ other_fault }
    ensures path { (tree_fault other_fault : Fault) (json_tree : Data) (path other_path : List PathSegment)
        → FaultAt tree_fault json_tree path → FaultAt other_fault json_tree other_path
        → path ≡ other_path }
{}

/// Proves that a tree that means nothing has a fault, and a path to it.
pub fn faults_have_places()
    ensures { (json_tree : Data) → MeansNothing json_tree → (tree_fault : Fault) × (path : List PathSegment)
        × FaultAt tree_fault json_tree path }
{}

/// Proves that in each mode of doubles a tree means nothing if and only if it has a fault at the
/// end of a path. There is one fault and one path, and the fault is the one that reading the tree
/// returns.
pub fn places_in_each_mode()
    ensures has_no_meaning { (doubles : Doubles) (json_tree : Data) → MeansNothingIn doubles json_tree
        ↔ ((tree_fault : Fault) × (path : List PathSegment) × FaultAtIn doubles tree_fault json_tree path) }
    ensures fault_is_read { (doubles : Doubles) (tree_fault : Fault) (json_tree : Data)
        → (reads_tree_in doubles json_tree ≡ Err tree_fault)
        ↔ ((path : List PathSegment) × FaultAtIn doubles tree_fault json_tree path) }
    ensures fault { (doubles : Doubles) (tree_fault other_fault : Fault) (json_tree : Data)
        (path other_path : List PathSegment) → FaultAtIn doubles tree_fault json_tree path
        → FaultAtIn doubles other_fault json_tree other_path → tree_fault ≡ other_fault }
    ensures path { (doubles : Doubles) (tree_fault other_fault : Fault) (json_tree : Data)
        (path other_path : List PathSegment) → FaultAtIn doubles tree_fault json_tree path
        → FaultAtIn doubles other_fault json_tree other_path → path ≡ other_path }
{}
