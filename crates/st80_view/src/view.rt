// An image with its classes and methods, and what its objects are called.
ghost use Rattle.std.specs.Prelude.{◌≡◌, IfErr, IfOk};
ghost use Rattle.st80_objects.specs.Images.{IsFaultOf, IsImageOf};
ghost use Rattle.st80_view.specs.Viewed.{image_of};

use crate::classes::{MethodHome, class_marks, method_homes};
use st80_objects::{Image, ImageFault, Labels};
use std::alloc::{AllocError, Global};

/// An image, which of its objects are classes, whose its methods are, and what its objects are called.
#[derive(Debug, Drop)]
pub struct View {
    pub(crate) image: Image,
    pub(crate) classes: Vec<bool>,
    pub(crate) methods: Vec<MethodHome>,
    pub(crate) labels: Labels,
}

impl View {
    /// Reads an image, or says which of the rules 1 to 9 and 13 it breaks first, and where. The other rules aren't judged: `findings` does.
    pub fn open(alloc: Global, bytes: &[u8]) -> Result<View, ImageFault>
        ensures image { IfOk result (λ view. IsImageOf bytes.now (image_of view)) }
        ensures fault { IfErr result (IsFaultOf bytes.now) }
    {
        let image = Image::read(alloc, bytes)?;
        Ok(View::of_image(alloc, image)?)
    }

    /// The view of an image.
    #[tactic(auto, unfolding(crate::specs::Viewed::image_of))]
    pub fn of_image(alloc: Global, image: Image) -> Result<View, AllocError>
        ensures { IfOk result (λ view. image_of view ≡ image) }
    {
        let classes = class_marks(alloc, &image.objects)?;
        let methods = method_homes(alloc, &image.objects)?;
        Ok(View {
            image,
            classes,
            methods,
            labels: Labels::new(alloc),
        })
    }

    /// What the objects are called from now on where the image has no name for them.
    #[tactic(auto, unfolding(crate::specs::Viewed::image_of))]
    pub fn set_labels(&mut self, labels: Labels)
        ensures { image_of self.new ≡ image_of self.old }
    {
        self.labels = labels;
    }

    /// The image.
    #[tactic(auto, unfolding(crate::specs::Viewed::image_of))]
    pub fn image(&self) -> &Image
        ensures { result.now ≡ image_of self.now }
    {
        &self.image
    }
}
