// What the words of a frame file mean.
ghost use Rattle.std.specs.Prelude.{◌≡◌};
ghost use Rattle.gd_tables.specs.Words.{kind_of, material_of, shape_of};
ghost use Rattle.gd_tables.specs.Kinds.{is_form};

/// How far a placement may turn the part (docs/FORMATS.md, "The frame file").
#[derive(Clone, Copy, Debug, PartialEq, Eq)]
pub enum Turn {
    /// In any way.
    All,
    /// Its quaternion's ratios are at most 2^-k in size, with k from 0 to 20.
    Within(u32),
}

/// The surface that a feature of size or a plane nominally is, or what its points stand for.
#[derive(Clone, Copy, Debug, PartialEq, Eq)]
pub enum Shape {
    /// A plane, whose direction points into the material.
    Plane,
    /// An internal cylinder.
    Hole,
    /// An external cylinder.
    Pin,
    /// The points of a derived axis.
    Axis,
    /// A sphere.
    Sphere,
}

/// The material condition of a tolerance (ASME Y14.5M-1994, 2.8).
#[derive(Clone, Copy, Debug, PartialEq, Eq)]
pub enum Material {
    /// Regardless of feature size.
    Rfs,
    /// At maximum material condition.
    Mmc,
    /// At least material condition.
    Lmc,
}

/// What a frame controls. Parallelism, perpendicularity and angularity are one kind: the direction of the feature
/// table says the angle.
#[derive(Clone, Copy, Debug, PartialEq, Eq)]
pub enum Kind {
    Flatness,
    Straightness,
    Circularity,
    Cylindricity,
    Orientation,
    Position,
    Profile,
    CircularRunout,
    TotalRunout,
}

impl Kind {
    /// Whether the kind is one of the four of form, which have no datums.
    pub fn is_form(self) -> bool
        ensures { result ≡ is_form self }
    {
        matches!(
            self,
            Kind::Flatness | Kind::Straightness | Kind::Circularity | Kind::Cylindricity
        )
    }
}

/// The shape that a word means.
pub fn shape_of(word: &str) -> Option<Shape>
    ensures { result ≡ shape_of word.now }
{
    match word {
        "plane" => Some(Shape::Plane),
        "hole" => Some(Shape::Hole),
        "pin" => Some(Shape::Pin),
        "axis" => Some(Shape::Axis),
        "sphere" => Some(Shape::Sphere),
        _ => None,
    }
}

/// The material condition that a word means.
pub fn material_of(word: &str) -> Option<Material>
    ensures { result ≡ material_of word.now }
{
    match word {
        "rfs" => Some(Material::Rfs),
        "mmc" => Some(Material::Mmc),
        "lmc" => Some(Material::Lmc),
        _ => None,
    }
}

/// The kind that a word means.
pub fn kind_of(word: &str) -> Option<Kind>
    ensures { result ≡ kind_of word.now }
{
    match word {
        "flatness" => Some(Kind::Flatness),
        "straightness" => Some(Kind::Straightness),
        "circularity" => Some(Kind::Circularity),
        "cylindricity" => Some(Kind::Cylindricity),
        "parallelism" | "perpendicularity" | "angularity" => Some(Kind::Orientation),
        "position" => Some(Kind::Position),
        "profile" => Some(Kind::Profile),
        "circular_runout" => Some(Kind::CircularRunout),
        "total_runout" => Some(Kind::TotalRunout),
        _ => None,
    }
}
